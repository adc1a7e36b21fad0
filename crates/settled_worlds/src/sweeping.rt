//! Cells swept one after another.
ghost use Rattle.std.specs.Prelude.{◌≡◌, ◌<◌, false, IfOk, IfSome, length};
ghost use Rattle.rsml_meaning.specs.Cells.{cells};
ghost use Rattle.bdd_core.specs.Diagram.{IsRef};
ghost use Rattle.bdd_core.specs.Calls.{Keeps};
ghost use Rattle.free_levels.specs.Keys.{AreKeys};
ghost use Rattle.keyed_levels.specs.Keyed.{keys_of};
ghost use Rattle.settled_worlds.specs.Settled.{AreExact};
ghost use Rattle.settled_worlds.specs.Steps.{all_but, is_kept, no_levels, AreReady, IsSwept};

use crate::exact_keys::ExactKeys;
use crate::keys::make_reader_exact;
use crate::next::next_cell;
use crate::parts::forget_cell;
use crate::striking::{strike, used_levels};
use bdd_core::{Arena, Ref};
use keyed_levels::KeyedLevels;
use rsml_base::NoMemory;
use spelled_numbers::SumTable;
use std::alloc::Global;

/// Cells swept, but one that is kept, until no key that is left reads one, or the function is false.
pub(crate) fn sweep_cells(
    alloc: Global,
    arena: &mut Arena,
    sums: &mut SumTable,
    levels: &KeyedLevels<'_, '_>,
    exact: &mut ExactKeys,
    left: &mut Vec<bool>,
    kept: Option<u32>,
    f: Ref,
) -> Result<Ref, NoMemory>
    requires ready { AreReady arena.old levels.now exact.old left.old.items }
    requires f_ref { IsRef arena.old f }
    ensures keeps { Keeps arena.old arena.new }
    ensures exact { AreExact arena.new levels.now exact.new }
    ensures answer { IfOk result (IsSwept levels.now (all_but levels.now kept) arena.old arena.new left.old.items left.new.items f) }
{
    let mut out = f;
    for _turn in 0..levels.layout().cells() {
        if exact.is_spent(arena.node_count()) {
            return Err(NoMemory);
        }
        match choose_cell(alloc, arena, levels, left, kept, out)? {
            None => return Ok(out),
            Some(cell) => {
                out = sweep_cell(alloc, arena, sums, levels, exact, left, kept, cell, out)?
            }
        }
    }
    Ok(out)
}

/// The next cell. The keys are struck off first that the function does not depend on. None where no key that is left reads a
/// cell, or the function is false.
#[tactic(auto, using(crate::proofs::StepLemmas::swept_none, crate::proofs::StepLemmas::swept_struck))]
fn choose_cell(
    alloc: Global,
    arena: &Arena,
    levels: &KeyedLevels<'_, '_>,
    left: &mut Vec<bool>,
    kept: Option<u32>,
    f: Ref,
) -> Result<Option<u32>, NoMemory>
    requires keys { AreKeys (keys_of levels.now) }
    requires room { arena.now.levels ≡ length levels.now.slots }
    requires many { length left.old.items ≡ length levels.now.keyed }
    requires f_ref { IsRef arena.now f }
    ensures cell { IfOk result (λ next. IfSome next (λ cell. (cell < length (cells levels.now.base.spec)) × (is_kept kept cell ≡ false))) }
    ensures struck { IsSwept levels.now no_levels arena.now arena.now left.old.items left.new.items f f }
{
    if arena.is_false(f) {
        return Ok(None);
    }
    let used = used_levels(alloc, arena, levels.layout().levels(), f)?;
    strike(levels, used.as_slice(), left);
    next_cell(alloc, levels, left.as_slice(), used.as_slice(), kept)
}

/// The keys that read a cell made exact, and then its levels forgotten. A function that is false before that is the answer.
fn sweep_cell(
    alloc: Global,
    arena: &mut Arena,
    sums: &mut SumTable,
    levels: &KeyedLevels<'_, '_>,
    exact: &mut ExactKeys,
    left: &mut Vec<bool>,
    kept: Option<u32>,
    cell: u32,
    f: Ref,
) -> Result<Ref, NoMemory>
    requires ready { AreReady arena.old levels.now exact.old left.old.items }
    requires f_ref { IsRef arena.old f }
    requires cell { cell < length (cells levels.now.base.spec) }
    requires other { is_kept kept cell ≡ false }
    ensures keeps { Keeps arena.old arena.new }
    ensures exact { AreExact arena.new levels.now exact.new }
    ensures answer { IfOk result (IsSwept levels.now (all_but levels.now kept) arena.old arena.new left.old.items left.new.items f) }
{
    let mut out = f;
    for place in 0..levels.keys().len() {
        if exact.is_spent(arena.node_count()) {
            return Err(NoMemory);
        }
        out = make_reader_exact(alloc, arena, sums, levels, exact, left, place, cell, out)?;
        if arena.is_false(out) {
            return Ok(out);
        }
    }
    forget_cell(alloc, arena, levels, cell, out)
}
