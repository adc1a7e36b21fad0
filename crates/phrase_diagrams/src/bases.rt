//! What sums come to where each cell has its least number.
ghost use Rattle.std.specs.Prelude.{◌≡◌, length};
ghost use Rattle.rsml_meaning.specs.Cells.{cells};
ghost use Rattle.rsml_ground.specs.Rests.{IsSmall, OperandFits, SumFits};
ghost use Rattle.phrase_diagrams.specs.Signs.{IsWithin};
ghost use Rattle.phrase_diagrams.specs.Terms as spec;

use rsml_ground::{GroundOperand, GroundSum, GroundTerm};
use world_levels::Layout;

/// The number of a sum where each cell has its least number.
pub(crate) fn sum_base(layout: &Layout<'_>, sum: &GroundSum) -> i64
    requires { SumFits (length (cells layout.now.spec)) sum.now }
    ensures number { result ≡ spec.sum_base layout.now.spec sum.now }
    ensures small { IsWithin 8000000000 result }
{
    let mut total = 0;
    for term in sum.terms.as_slice() {
        total += term_base(layout, *term);
    }
    total
}

/// The number of a term where each cell has its least number.
fn term_base(layout: &Layout<'_>, term: GroundTerm) -> i64
    requires { OperandFits (length (cells layout.now.spec)) term.operand }
    ensures number { result ≡ spec.term_base layout.now.spec term }
    ensures small { IsWithin 1000000000 result }
{
    let number = operand_base(layout, term.operand);
    if term.minus { -number } else { number }
}

/// A number, or the least number of a cell.
fn operand_base(layout: &Layout<'_>, operand: GroundOperand) -> i64
    requires { OperandFits (length (cells layout.now.spec)) operand }
    ensures number { result ≡ spec.operand_base layout.now.spec operand }
    ensures small { IsWithin 1000000000 result }
{
    layout.law();
    match operand {
        GroundOperand::Number(number) => number,
        GroundOperand::Cell(cell) => layout.low(cell),
    }
}
