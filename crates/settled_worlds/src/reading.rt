//! The cells that comparisons read.
ghost use Rattle.std.specs.Prelude.{◌≡◌, ◌<◌, length, slice_get};
ghost use Rattle.keyed_levels.specs.Keyed.{key_at, phrases_of};
ghost use Rattle.settled_worlds.specs.Steps as spec;

use crate::one_key::key;
use keyed_levels::KeyedLevels;
use rsml_base::NoMemory;
use rsml_ground::{GroundOperand, GroundPhrase, GroundSum};
use std::alloc::Global;

/// Whether the comparison of the key at a place names a cell.
pub(crate) fn reads(levels: &KeyedLevels<'_, '_>, place: usize, cell: u32) -> bool
    requires { place < length levels.now.keyed }
    ensures { result ≡ spec.compares cell (slice_get (phrases_of levels.now) (key_at levels.now.keyed place).phrase) }
{
    match levels.phrase(key(levels, place).phrase) {
        GroundPhrase::Compare { left, right, .. } => names(left, cell) || names(right, cell),
        _ => false,
    }
}

/// Whether a sum names a cell.
fn names(sum: &GroundSum, cell: u32) -> bool
    ensures { result ≡ spec.names cell sum.now }
{
    sum.terms
        .as_slice()
        .iter()
        .any(|term| is_cell(term.operand, cell))
}

fn is_cell(operand: GroundOperand, cell: u32) -> bool
    ensures { result ≡ spec.is_cell cell operand }
{
    match operand {
        GroundOperand::Number(_) => false,
        GroundOperand::Cell(other) => other == cell,
    }
}

/// The cells that the comparison of the key at a place names, as often as it names them.
pub(crate) fn cells_of(
    alloc: Global,
    levels: &KeyedLevels<'_, '_>,
    place: usize,
) -> Result<Vec<u32>, NoMemory>
    requires { place < length levels.now.keyed }
{
    let mut cells = Vec::new(alloc);
    if let GroundPhrase::Compare { left, right, .. } = levels.phrase(key(levels, place).phrase) {
        push_cells(&mut cells, left)?;
        push_cells(&mut cells, right)?;
    }
    Ok(cells)
}

fn push_cells(cells: &mut Vec<u32>, sum: &GroundSum) -> Result<(), NoMemory> {
    for term in sum.terms.as_slice() {
        if let GroundOperand::Cell(cell) = term.operand {
            cells.push(cell)?;
        }
    }
    Ok(())
}
