//! Exact diagrams of comparisons.
ghost use Rattle.std.specs.Prelude.{◌≡◌, ◌<◌, IfOk, length, slice_get};
ghost use Rattle.bdd_core.specs.Calls.{Keeps, Represents};
ghost use Rattle.keyed_levels.specs.Keyed.{comparison, keys_of, phrases_of, world_at};
ghost use Rattle.settled_worlds.specs.Settled.{AreExact};

use crate::exact_keys::ExactKeys;
use crate::one_key::key;
use bdd_core::{Arena, Ref};
use keyed_levels::KeyedLevels;
use phrase_diagrams::compare;
use rsml_base::NoMemory;
use rsml_ground::GroundPhrase;
use spelled_numbers::SumTable;
use std::alloc::Global;

/// The exact diagram of the key at a place. It is made where it has not been.
pub(crate) fn exact_of(
    alloc: Global,
    arena: &mut Arena,
    sums: &mut SumTable,
    levels: &KeyedLevels<'_, '_>,
    exact: &mut ExactKeys,
    place: usize,
) -> Result<Ref, NoMemory>
    requires room { arena.old.levels ≡ length levels.now.slots }
    requires exact { AreExact arena.old levels.now exact.old }
    requires place { place < length levels.now.keyed }
    ensures keeps { Keeps arena.old arena.new }
    ensures exact { AreExact arena.new levels.now exact.new }
    ensures answer { IfOk result (Represents arena.new ((keys_of levels.now).function place)) }
{
    if let Some(made) = exact.get(place) {
        return Ok(made);
    }
    let phrase = key(levels, place).phrase;
    let made = truth_of(alloc, arena, sums, levels, phrase)?;
    exact.set(place, made);
    Ok(made)
}

/// Where a comparison holds.
fn truth_of(
    alloc: Global,
    arena: &mut Arena,
    sums: &mut SumTable,
    levels: &KeyedLevels<'_, '_>,
    phrase: u32,
) -> Result<Ref, NoMemory>
    requires room { arena.old.levels ≡ length levels.now.slots }
    requires phrase { phrase < length (phrases_of levels.now) }
    ensures keeps { Keeps arena.old arena.new }
    ensures answer { IfOk result (Represents arena.new (λ values.
        comparison (world_at levels.now values) (slice_get (phrases_of levels.now) phrase))) }
{
    match levels.phrase(phrase) {
        GroundPhrase::Compare {
            left,
            relation,
            right,
        } => compare(alloc, arena, sums, levels.layout(), left, *relation, right),
        _ => Ok(arena.constant(false)),
    }
}
