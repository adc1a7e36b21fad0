//! Keys made exact.
ghost use Rattle.std.specs.Prelude.{◌≡◌, ◌<◌, true, false, IfOk, length};
ghost use Rattle.rsml_meaning.specs.Cells.{cells};
ghost use Rattle.bdd_core.specs.Diagram.{IsRef};
ghost use Rattle.bdd_core.specs.Calls.{Keeps};
ghost use Rattle.free_levels.specs.Stages.{is_left};
ghost use Rattle.settled_worlds.specs.Settled.{AreExact};
ghost use Rattle.settled_worlds.specs.Steps.{no_levels, AreReady, IsOver, IsSwept, IsUnread};

use crate::comparisons::exact_of;
use crate::exact_keys::ExactKeys;
use crate::one_key::key;
use crate::reading::reads;
use bdd_core::{Arena, Ref};
use free_levels::make_exact;
use keyed_levels::KeyedLevels;
use rsml_base::NoMemory;
use spelled_numbers::SumTable;
use std::alloc::Global;

/// Puts the comparison of the key at a place in place of its level, where the key is left.
pub(crate) fn make_key_exact(
    alloc: Global,
    arena: &mut Arena,
    sums: &mut SumTable,
    levels: &KeyedLevels<'_, '_>,
    exact: &mut ExactKeys,
    left: &mut Vec<bool>,
    place: usize,
    f: Ref,
) -> Result<Ref, NoMemory>
    requires ready { AreReady arena.old levels.now exact.old left.old.items }
    requires f_ref { IsRef arena.old f }
    requires place { place < length levels.now.keyed }
    ensures keeps { Keeps arena.old arena.new }
    ensures exact { AreExact arena.new levels.now exact.new }
    ensures done { IfOk result (λ r. is_left left.new.items place ≡ false) }
    ensures answer { IfOk result (IsSwept levels.now no_levels arena.old arena.new left.old.items left.new.items f) }
{
    if !left[place] {
        return Ok(f);
    }
    let made = exact_of(alloc, arena, sums, levels, exact, place)?;
    let level = key(levels, place).level;
    make_exact(arena, f, place, level, made, left)
}

/// The same, where the key's comparison names a cell.
pub(crate) fn make_reader_exact(
    alloc: Global,
    arena: &mut Arena,
    sums: &mut SumTable,
    levels: &KeyedLevels<'_, '_>,
    exact: &mut ExactKeys,
    left: &mut Vec<bool>,
    place: usize,
    cell: u32,
    f: Ref,
) -> Result<Ref, NoMemory>
    requires ready { AreReady arena.old levels.now exact.old left.old.items }
    requires f_ref { IsRef arena.old f }
    requires place { place < length levels.now.keyed }
    requires cell { cell < length (cells levels.now.base.spec) }
    ensures keeps { Keeps arena.old arena.new }
    ensures exact { AreExact arena.new levels.now exact.new }
    ensures done { IfOk result (λ r. is_left left.new.items place ≡ true → IsUnread levels.now cell place) }
    ensures answer { IfOk result (IsSwept levels.now no_levels arena.old arena.new left.old.items left.new.items f) }
{
    if !reads(levels, place, cell) {
        return Ok(f);
    }
    make_key_exact(alloc, arena, sums, levels, exact, left, place, f)
}

/// All keys that are left made exact, until the function is false.
pub(crate) fn make_rest_exact(
    alloc: Global,
    arena: &mut Arena,
    sums: &mut SumTable,
    levels: &KeyedLevels<'_, '_>,
    exact: &mut ExactKeys,
    left: &mut Vec<bool>,
    f: Ref,
) -> Result<Ref, NoMemory>
    requires ready { AreReady arena.old levels.now exact.old left.old.items }
    requires f_ref { IsRef arena.old f }
    ensures keeps { Keeps arena.old arena.new }
    ensures exact { AreExact arena.new levels.now exact.new }
    ensures over { IfOk result (IsOver levels.now arena.new left.new.items) }
    ensures answer { IfOk result (IsSwept levels.now no_levels arena.old arena.new left.old.items left.new.items f) }
{
    let mut out = f;
    for place in 0..levels.keys().len() {
        if arena.is_false(out) {
            return Ok(out);
        }
        out = make_key_exact(alloc, arena, sums, levels, exact, left, place, out)?;
    }
    Ok(out)
}
