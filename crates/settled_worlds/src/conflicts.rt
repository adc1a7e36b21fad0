//! Comparisons that contradict one another by arithmetic.
ghost use Rattle.std.specs.Prelude.{◌≡◌, ◌<◌, All, IfOk, IfSome, length};
ghost use Rattle.bdd_core.specs.Diagram.{IsRef};
ghost use Rattle.bdd_core.specs.Calls.{Keeps};
ghost use Rattle.settled_worlds.specs.Settled.{IsSameLawfully};
ghost use Rattle.settled_worlds.specs.Conflicts.{HoldWorlds, IsThere, IsUnlike, IsWithout};

use crate::literal::Literal;
use crate::one_key::key;
use crate::paths::{Search, path};
use crate::ranges::ranges;
use crate::rows::rows_of;
use bdd_core::{Arena, Ref};
use keyed_levels::KeyedLevels;
use linear_conflicts::{Range, conflict};
use rsml_base::NoMemory;
use std::alloc::Global;

/// How many conflicts are taken off at most, where there are no more keys than that; else as many as there are keys.
const MOST: usize = 200;

/// How many nodes are made for that at most, but for those of the last one.
const NODES: usize = 131072;

/// A function that is what `f` is at lawful values: false everywhere where the comparisons on the paths of `f` to true contradict
/// one another by arithmetic, else `f` itself.
#[tactic(auto, using(crate::proofs::ConflictLemmas::same_kept, crate::proofs::SameLemmas::same_still, crate::proofs::SameLemmas::same_both))]
pub fn without_conflicts(
    alloc: Global,
    arena: &mut Arena,
    levels: &KeyedLevels<'_, '_>,
    f: Ref,
) -> Result<Ref, NoMemory>
    requires f_ref { IsRef arena.old f }
    requires room { arena.old.levels ≡ length levels.now.slots }
    ensures keeps { Keeps arena.old arena.new }
    ensures answer { IfOk result (IsSameLawfully arena.old arena.new levels.now f) }
{
    let ranges = ranges(alloc, levels)?;
    let mut search = Search::new(alloc);
    let before = arena.node_count();
    let mut rest = f;
    for _turn in 0..MOST.max(levels.keys().len()) {
        if arena.is_false(rest) {
            return Ok(rest);
        }
        let found = without_conflict(alloc, arena, levels, ranges.as_slice(), &mut search, rest)?;
        match found {
            Some(less) => rest = less,
            None => return Ok(f),
        }
        if arena.node_count() - before > NODES {
            return Ok(f);
        }
    }
    Ok(f)
}

/// A function without the values at which some keys of a path contradict one another. None where no conflict is found.
#[tactic(auto, using(crate::proofs::ConflictLemmas::core_within))]
fn without_conflict(
    alloc: Global,
    arena: &mut Arena,
    levels: &KeyedLevels<'_, '_>,
    ranges: &[Range],
    search: &mut Search,
    f: Ref,
) -> Result<Option<Ref>, NoMemory>
    requires f_ref { IsRef arena.old f }
    requires room { arena.old.levels ≡ length levels.now.slots }
    requires ranges { HoldWorlds levels.now ranges.now }
    ensures keeps { Keeps arena.old arena.new }
    ensures answer { IfOk result (λ found. IfSome found (IsSameLawfully arena.old arena.new levels.now f)) }
{
    let path = path(alloc, arena, levels, search, f)?;
    let rows = rows_of(alloc, levels, path.as_slice())?;
    match conflict(alloc, rows.rows.as_slice(), ranges)? {
        Some(core) => {
            let less = without(arena, levels, rows.literals.as_slice(), core.as_slice(), f)?;
            Ok(Some(less))
        }
        None => Ok(None),
    }
}

/// A function without the values at which the literals at these places are all so.
#[tactic(auto, using(crate::proofs::ConflictLemmas::without_all))]
fn without(
    arena: &mut Arena,
    levels: &KeyedLevels<'_, '_>,
    literals: &[Literal],
    places: &[usize],
    f: Ref,
) -> Result<Ref, NoMemory>
    requires f_ref { IsRef arena.old f }
    requires room { arena.old.levels ≡ length levels.now.slots }
    requires there { All (IsThere levels.now) literals.now }
    requires places { All (λ place. place < length literals.now) places.now }
    ensures keeps { Keeps arena.old arena.new }
    ensures answer { IfOk result (IsWithout levels.now literals.now places.now arena.old arena.new f) }
{
    let mut out = arena.constant(false);
    for place in places {
        let other = unlike(arena, levels, literals[*place])?;
        out = arena.or(out, other)?;
    }
    arena.and(f, out)
}

/// Where the level of a key has the other value.
#[tactic(auto, using(crate::proofs::ConflictLemmas::unlike_true, crate::proofs::ConflictLemmas::unlike_false, crate::proofs::ConflictLemmas::level_there))]
fn unlike(
    arena: &mut Arena,
    levels: &KeyedLevels<'_, '_>,
    literal: Literal,
) -> Result<Ref, NoMemory>
    requires room { arena.old.levels ≡ length levels.now.slots }
    requires there { IsThere levels.now literal }
    ensures keeps { Keeps arena.old arena.new }
    ensures answer { IfOk result (IsUnlike levels.now literal arena.new) }
{
    let _ = levels.keys();
    let level = key(levels, literal.place).level;
    let value = arena.var(level)?;
    if literal.truth {
        arena.not(value)
    } else {
        Ok(value)
    }
}
