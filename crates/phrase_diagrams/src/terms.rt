//! The levels of sums.
ghost use Rattle.std.specs.Prelude.{◌≡◌, ◌++◌, length, map, OnOk};
ghost use Rattle.rsml_meaning.specs.Cells.{cells};
ghost use Rattle.rsml_ground.specs.Rests.{OperandFits, SumFits};
ghost use Rattle.phrase_diagrams.specs.Signs.{with_sign};
ghost use Rattle.phrase_diagrams.specs.Terms.{term_levels, sum_levels};

use crate::cells::cell_bits;
use rsml_base::NoMemory;
use rsml_ground::{GroundOperand, GroundSum, GroundTerm};
use spelled_numbers::Weighted;
use world_levels::Layout;

/// Puts the levels of a sum at the end. Their weights add, or are taken off where `minus`, as the
/// terms of the sum are.
pub(crate) fn push_sum(
    levels: &mut Vec<Weighted>,
    layout: &Layout<'_>,
    sum: &GroundSum,
    minus: bool,
) -> Result<(), NoMemory>
    requires { SumFits (length (cells layout.now.spec)) sum.now }
    ensures { OnOk result (levels.new.items ≡ levels.old.items ++ sum_levels layout.now minus sum.now) }
{
    for term in sum.terms.as_slice() {
        push_term(levels, layout, *term, minus)?;
    }
    Ok(())
}

/// Puts the levels of a term at the end.
fn push_term(
    levels: &mut Vec<Weighted>,
    layout: &Layout<'_>,
    term: GroundTerm,
    minus: bool,
) -> Result<(), NoMemory>
    requires { OperandFits (length (cells layout.now.spec)) term.operand }
    ensures { OnOk result (levels.new.items ≡ levels.old.items ++ term_levels layout.now minus term) }
{
    match term.operand {
        GroundOperand::Number(_) => Ok(()),
        GroundOperand::Cell(cell) => {
            push_bits(levels, cell_bits(layout, cell), term.minus != minus)
        }
    }
}

/// Puts these levels at the end, each with this sign.
fn push_bits(levels: &mut Vec<Weighted>, bits: &[Weighted], minus: bool) -> Result<(), NoMemory>
    ensures { OnOk result (levels.new.items ≡ levels.old.items ++ map (with_sign minus) bits.now) }
{
    for bit in bits {
        levels.push(Weighted { minus, ..*bit })?;
    }
    Ok(())
}
