//! The comparisons of the first cells made exact.
ghost use Rattle.std.specs.Prelude.{◌≡◌, ◌<◌, IfOk, length};
ghost use Rattle.bdd_core.specs.Diagram.{IsRef};
ghost use Rattle.bdd_core.specs.Calls.{Keeps};
ghost use Rattle.settled_worlds.specs.Settled.{AreExact, IsSameLawfully};

use crate::comparisons::exact_of;
use crate::exact_keys::ExactKeys;
use crate::one_key::key;
use crate::reading::cells_of;
use crate::striking::{is_used, used_levels};
use bdd_core::{Arena, Ref};
use free_levels::compose;
use keyed_levels::KeyedLevels;
use rsml_base::NoMemory;
use spelled_numbers::SumTable;
use std::alloc::Global;

/// `f` with the comparisons in place of their levels that name none but the first so many cells: at lawful values it is what it was.
/// Where `f` is true only with one number of each of these cells, such a comparison is true or false, so that its level goes.
pub fn with_exact(
    alloc: Global,
    arena: &mut Arena,
    sums: &mut SumTable,
    levels: &KeyedLevels<'_, '_>,
    exact: &mut ExactKeys,
    cells: usize,
    f: Ref,
) -> Result<Ref, NoMemory>
    requires f_ref { IsRef arena.old f }
    requires room { arena.old.levels ≡ length levels.now.slots }
    requires exact { AreExact arena.old levels.now exact.old }
    ensures keeps { Keeps arena.old arena.new }
    ensures exact { AreExact arena.new levels.now exact.new }
    ensures answer { IfOk result (IsSameLawfully arena.old arena.new levels.now f) }
{
    let used = used_levels(alloc, arena, levels.layout().levels(), f)?;
    let mut out = f;
    for place in 0..levels.keys().len() {
        out = with_one_exact(
            alloc,
            arena,
            sums,
            levels,
            exact,
            used.as_slice(),
            cells,
            place,
            out,
        )?;
    }
    Ok(out)
}

/// `f` with the comparison of the key at a place in place of its level, where that is used and it names none but the first so many cells.
fn with_one_exact(
    alloc: Global,
    arena: &mut Arena,
    sums: &mut SumTable,
    levels: &KeyedLevels<'_, '_>,
    exact: &mut ExactKeys,
    used: &[bool],
    cells: usize,
    place: usize,
    f: Ref,
) -> Result<Ref, NoMemory>
    requires f_ref { IsRef arena.old f }
    requires room { arena.old.levels ≡ length levels.now.slots }
    requires exact { AreExact arena.old levels.now exact.old }
    requires place { place < length levels.now.keyed }
    ensures keeps { Keeps arena.old arena.new }
    ensures exact { AreExact arena.new levels.now exact.new }
    ensures answer { IfOk result (IsSameLawfully arena.old arena.new levels.now f) }
{
    if !is_used(used, key(levels, place).level) {
        return Ok(f);
    }
    if !is_within(alloc, levels, place, cells)? {
        return Ok(f);
    }
    with_key_exact(alloc, arena, sums, levels, exact, place, f)
}

/// Whether the comparison of the key at a place names none but the first so many cells.
fn is_within(
    alloc: Global,
    levels: &KeyedLevels<'_, '_>,
    place: usize,
    cells: usize,
) -> Result<bool, NoMemory>
    requires { place < length levels.now.keyed }
{
    let named = cells_of(alloc, levels, place)?;
    Ok(named.as_slice().iter().all(|cell| (*cell as usize) < cells))
}

/// `f` with the comparison of the key at a place in place of its level.
fn with_key_exact(
    alloc: Global,
    arena: &mut Arena,
    sums: &mut SumTable,
    levels: &KeyedLevels<'_, '_>,
    exact: &mut ExactKeys,
    place: usize,
    f: Ref,
) -> Result<Ref, NoMemory>
    requires f_ref { IsRef arena.old f }
    requires room { arena.old.levels ≡ length levels.now.slots }
    requires exact { AreExact arena.old levels.now exact.old }
    requires place { place < length levels.now.keyed }
    ensures keeps { Keeps arena.old arena.new }
    ensures exact { AreExact arena.new levels.now exact.new }
    ensures answer { IfOk result (IsSameLawfully arena.old arena.new levels.now f) }
{
    let made = exact_of(alloc, arena, sums, levels, exact, place)?;
    compose(arena, f, key(levels, place).level, made)
}
