//! Functions settled.
ghost use Rattle.std.specs.Prelude.{◌≡◌, ◌<◌, IfOk, None, Some, length};
ghost use Rattle.bdd_core.specs.Diagram.{IsRef};
ghost use Rattle.bdd_core.specs.Calls.{Keeps};
ghost use Rattle.rsml_meaning.specs.Cells.{cells};
ghost use Rattle.settled_worlds.specs.Settled.{cell_levels, AreExact, IsProjected, IsSettled};
ghost use Rattle.settled_worlds.specs.Steps.{all_but, HasEnded};

use crate::exact_keys::ExactKeys;
use crate::keys::make_rest_exact;
use crate::sweeping::sweep_cells;
use bdd_core::{Arena, Ref};
use keyed_levels::{KeyedLevels, keyed_laws};
use rsml_base::NoMemory;
use spelled_numbers::SumTable;
use std::alloc::Global;

/// A function that is false everywhere exactly where `f` is false at all lawful values: where it tells nothing that is true of a
/// world. Cells are taken one by one: the comparisons that read the cell are made exact, and its levels are forgotten at once.
/// The next cell is the one that leaves the fewest cells.
pub fn settle(
    alloc: Global,
    arena: &mut Arena,
    sums: &mut SumTable,
    levels: &KeyedLevels<'_, '_>,
    exact: &mut ExactKeys,
    f: Ref,
) -> Result<Ref, NoMemory>
    requires f_ref { IsRef arena.old f }
    requires room { arena.old.levels ≡ length levels.now.slots }
    requires exact { AreExact arena.old levels.now exact.old }
    ensures keeps { Keeps arena.old arena.new }
    ensures exact { AreExact arena.new levels.now exact.new }
    ensures answer { IfOk result (IsSettled arena.old arena.new levels.now f) }
{
    sweep_all(alloc, arena, sums, levels, exact, None, f)
}

/// A function that tells of the levels of one cell what `f` does at lawful values. It goes as `settle` does, but these levels stay.
pub fn project(
    alloc: Global,
    arena: &mut Arena,
    sums: &mut SumTable,
    levels: &KeyedLevels<'_, '_>,
    exact: &mut ExactKeys,
    cell: u32,
    f: Ref,
) -> Result<Ref, NoMemory>
    requires f_ref { IsRef arena.old f }
    requires room { arena.old.levels ≡ length levels.now.slots }
    requires exact { AreExact arena.old levels.now exact.old }
    requires cell { cell < length (cells levels.now.base.spec) }
    ensures keeps { Keeps arena.old arena.new }
    ensures exact { AreExact arena.new levels.now exact.new }
    ensures answer { IfOk result (IsProjected arena.old arena.new levels.now (cell_levels levels.now cell) f) }
{
    let _ = levels.keys();
    sweep_all(alloc, arena, sums, levels, exact, Some(cell), f)
}

/// All keys made exact, and all cells forgotten that some key reads, but one that is kept; or as many as it takes until the function
/// is false.
fn sweep_all(
    alloc: Global,
    arena: &mut Arena,
    sums: &mut SumTable,
    levels: &KeyedLevels<'_, '_>,
    exact: &mut ExactKeys,
    kept: Option<u32>,
    f: Ref,
) -> Result<Ref, NoMemory>
    requires f_ref { IsRef arena.old f }
    requires room { arena.old.levels ≡ length levels.now.slots }
    requires exact { AreExact arena.old levels.now exact.old }
    ensures keeps { Keeps arena.old arena.new }
    ensures exact { AreExact arena.new levels.now exact.new }
    ensures ended { IfOk result (HasEnded levels.now (all_but levels.now kept) arena.old arena.new f) }
{
    keyed_laws();
    let mut left = vec![in alloc; true; levels.keys().len()]?;
    let swept = sweep_cells(alloc, arena, sums, levels, exact, &mut left, kept, f)?;
    make_rest_exact(alloc, arena, sums, levels, exact, &mut left, swept)
}
