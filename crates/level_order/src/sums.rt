//! The cells that sums name.
use crate::parts::Parts;
use crate::sets::PartSet;
use rsml_base::NoMemory;
use rsml_ground::{GroundOperand, GroundSum};

/// What the two sums of a comparison name.
#[derive(Clone, Copy, Debug, PartialEq, Eq)]
enum Named {
    NoCell,
    OneCell(u32),
    SeveralCells,
}

/// What two sums name. A cell that stands there twice counts as several.
fn named_by(left: &GroundSum, right: &GroundSum) -> Named {
    let mut named = Named::NoCell;
    for term in left.terms.as_slice().iter().chain(right.terms.as_slice()) {
        if let GroundOperand::Cell(cell) = term.operand {
            named = match named {
                Named::NoCell => Named::OneCell(cell),
                _ => Named::SeveralCells,
            };
        }
    }
    named
}

/// The cell that two sums name, where they name one alone.
pub fn only_cell(left: &GroundSum, right: &GroundSum) -> Option<u32> {
    match named_by(left, right) {
        Named::OneCell(cell) => Some(cell),
        _ => None,
    }
}

/// Puts what the comparison of a phrase reads into a set: its cell, or where it names several the level that it has of its own.
pub fn put_comparison(
    parts: &Parts<'_>,
    phrase: u32,
    left: &GroundSum,
    right: &GroundSum,
    set: &mut PartSet,
) -> Result<(), NoMemory> {
    match named_by(left, right) {
        Named::NoCell => Ok(()),
        Named::OneCell(cell) => set.add(parts.cell(cell)),
        Named::SeveralCells => set.add(parts.comparison(phrase)),
    }
}

/// Puts the cells of a sum into a set.
pub fn put_cells(parts: &Parts<'_>, sum: &GroundSum, set: &mut PartSet) -> Result<(), NoMemory> {
    for term in sum.terms.as_slice() {
        if let GroundOperand::Cell(cell) = term.operand {
            set.add(parts.cell(cell))?;
        }
    }
    Ok(())
}
