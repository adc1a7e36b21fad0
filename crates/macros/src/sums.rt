ghost use Rattle.std.specs.Prelude.{◌≡◌, All, length};
ghost use Rattle.rsml_ground.specs.Rests.{IsSmall, OperandFits, SumFits};
ghost use Rattle.rsml_ground.specs.Truths as spec;

use rsml_ground::{GroundOperand, GroundSum, GroundTerm};

/// The number of a sum, of the numbers that the cells hold.
pub fn sum_number(cells: &[i64], sum: &GroundSum) -> i64
    requires fits { SumFits (length cells.now) sum.now }
    requires small { All IsSmall cells.now }
    ensures { result ≡ spec.sum_number cells.now sum.now }
{
    let mut total = 0;
    for term in sum.terms.as_slice() {
        total += term_number(cells, *term);
    }
    total
}

/// The number of a term, with its sign.
pub fn term_number(cells: &[i64], term: GroundTerm) -> i64
    requires fits { OperandFits (length cells.now) term.operand }
    requires small { All IsSmall cells.now }
    ensures number { result ≡ spec.term_number cells.now term }
    ensures small { IsSmall result }
{
    let number = operand_number(cells, term.operand);
    if term.minus { -number } else { number }
}

/// A number, or what the cell holds.
fn operand_number(cells: &[i64], operand: GroundOperand) -> i64
    requires fits { OperandFits (length cells.now) operand }
    requires small { All IsSmall cells.now }
    ensures number { result ≡ spec.operand_number cells.now operand }
    ensures small { IsSmall result }
{
    match operand {
        GroundOperand::Number(number) => number,
        GroundOperand::Cell(cell) => cells[cell as usize],
    }
}
