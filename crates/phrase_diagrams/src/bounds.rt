//! Where a cell has at most a number.
ghost use Rattle.std.specs.Prelude.{◌≡◌, ◌<◌, length, slice_index_or, IfOk, pos, int_le, ◌-ℤ◌, ◌<ℤ◌, MatchOption};
ghost use Rattle.rsml_meaning.specs.Cells.{cells};
ghost use Rattle.bdd_core.specs.Calls.{Keeps};
ghost use Rattle.phrase_diagrams.specs.Tells.{Tells};

use crate::cells::cell_bits;
use bdd_core::{Arena, Ref};
use rsml_base::NoMemory;
use spelled_numbers::SumTable;
use world_levels::Layout;

/// Where a cell has at most this number.
pub fn at_most(
    arena: &mut Arena,
    sums: &mut SumTable,
    layout: &Layout<'_>,
    cell: u32,
    number: i64,
) -> Result<Ref, NoMemory>
    requires levels { arena.old.levels ≡ length layout.now.slots }
    requires cell { cell < length (cells layout.now.spec) }
    ensures keeps { Keeps arena.old arena.new }
    ensures answer { IfOk result (Tells arena.new layout.now (λ w.
        int_le (slice_index_or w.cells cell (pos 0)) number)) }
{
    layout.law();
    match above(layout.low(cell), number) {
        None => Ok(arena.constant(false)),
        Some(most) => sums.at_most(arena, cell_bits(layout, cell), most),
    }
}

/// How far a number is above the least. None where it is below it.
fn above(least: i64, number: i64) -> Option<u64>
    ensures { MatchOption result (number <ℤ least) (λ above. pos above ≡ number -ℤ least) }
{
    if number < least {
        None
    } else {
        Some(number.abs_diff(least))
    }
}
