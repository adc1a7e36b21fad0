//! Paths from a function to the constant true.
ghost use Rattle.std.specs.Prelude.{◌<◌, ◌≤◌, All, IfOk, IfSome, OnOk, length};
ghost use Rattle.bdd_core.specs.Diagram.{Diagram, IsRef};
ghost use Rattle.settled_worlds.specs.Conflicts.{AreSteps, IsThere, LeadBack};

use crate::literal::Literal;
use bdd_core::{Arena, Ref};
use indexmap::IndexSet;
use keyed_levels::KeyedLevels;
use rsml_base::NoMemory;
use std::alloc::Global;

/// How many functions are looked at on the way at most.
const MOST: usize = 4096;

/// A function on paths: the place of the one before it, and by which value of which level it is reached from there.
#[derive(Clone, Copy)]
struct Step {
    function: Ref,
    from: usize,
    level: u32,
    value: bool,
}

/// What a search has seen. The next one takes its room.
pub(crate) struct Search {
    seen: IndexSet<Ref>,
    steps: Vec<Step>,
    /// Whether a shortest path was too long to be found: none is looked for any more.
    gave_up: bool,
}

impl Drop for Search {
    fn drop(self) {
        let Self {
            seen: _,
            steps: _,
            gave_up: _,
        } = self;
    }
}

impl Search {
    pub fn new(alloc: Global) -> Search {
        Search {
            seen: IndexSet::new(alloc),
            steps: Vec::new(alloc),
            gave_up: false,
        }
    }
}

/// The keys on a path from a function to the constant true, each with its value there: on a shortest one, where that can be found.
pub(crate) fn path(
    alloc: Global,
    arena: &Arena,
    levels: &KeyedLevels<'_, '_>,
    search: &mut Search,
    f: Ref,
) -> Result<Vec<Literal>, NoMemory>
    requires f_ref { IsRef arena.now f }
    ensures { IfOk result (λ path. All (IsThere levels.now) path.items) }
{
    if !search.gave_up {
        if let Some(path) = shortest(alloc, arena, levels, search, f)? {
            return Ok(path);
        }
        search.gave_up = true;
    }
    lowest(alloc, arena, levels, f)
}

/// The keys on the path that takes the low child wherever that is not false.
#[tactic(auto, using(crate::proofs::PathLemmas::low_before, crate::proofs::PathLemmas::high_before))]
fn lowest(
    alloc: Global,
    arena: &Arena,
    levels: &KeyedLevels<'_, '_>,
    f: Ref,
) -> Result<Vec<Literal>, NoMemory>
    requires f_ref { IsRef arena.now f }
    ensures { IfOk result (λ path. All (IsThere levels.now) path.items) }
{
    let mut path = Vec::new(alloc);
    let mut at = f;
    while let Some(node) = arena.branch(at) {
        let high = arena.is_false(node.low);
        push_key(&mut path, levels, node.level, high)?;
        at = if high { node.high } else { node.low };
    }
    Ok(path)
}

/// The keys on a shortest path from a function to the constant true. None where it is too long to be found.
#[tactic(auto, using(crate::proofs::PathLemmas::first_step))]
fn shortest(
    alloc: Global,
    arena: &Arena,
    levels: &KeyedLevels<'_, '_>,
    search: &mut Search,
    f: Ref,
) -> Result<Option<Vec<Literal>>, NoMemory>
    requires f_ref { IsRef arena.now f }
    ensures { IfOk result (λ found. IfSome found (λ path. All (IsThere levels.now) path.items)) }
{
    search.seen.clear();
    search.steps.clear();
    search.steps.push(Step {
        function: f,
        from: 0,
        level: 0,
        value: false,
    })?;
    for place in 0..MOST {
        if place >= search.steps.len() {
            break;
        }
        let function = search.steps[place].function;
        if arena.is_true(function) {
            let path = keys_back(alloc, levels, search.steps.as_slice(), place)?;
            return Ok(Some(path));
        }
        push_children(arena, &mut search.seen, &mut search.steps, place, function)?;
    }
    Ok(None)
}

/// Puts the children of the function at a place at the end of the steps, where they have not been seen.
#[tactic(auto, using(crate::proofs::PathLemmas::low_ref, crate::proofs::PathLemmas::high_ref))]
fn push_children(
    arena: &Arena,
    seen: &mut IndexSet<Ref>,
    steps: &mut Vec<Step>,
    place: usize,
    function: Ref,
) -> Result<(), NoMemory>
    requires function { IsRef arena.now function }
    requires steps { AreSteps arena.now steps.old.items }
    requires place { place < length steps.old.items }
    ensures { OnOk result (AreSteps arena.now steps.new.items) }
{
    if let Some(node) = arena.branch(function) {
        push_step(arena, seen, steps, place, node.level, false, node.low)?;
        push_step(arena, seen, steps, place, node.level, true, node.high)?;
    }
    Ok(())
}

/// Puts a step at the end, where its function is not false everywhere and has not been seen.
#[tactic(auto, using(crate::proofs::PathLemmas::step_more))]
fn push_step(
    arena: &Arena,
    seen: &mut IndexSet<Ref>,
    steps: &mut Vec<Step>,
    from: usize,
    level: u32,
    value: bool,
    function: Ref,
) -> Result<(), NoMemory>
    requires there { IsRef arena.now function }
    requires from { from < length steps.old.items }
    ensures steps { OnOk result ((d : Diagram) → AreSteps d steps.old.items → IsRef d function
        → AreSteps d steps.new.items) }
    ensures many { OnOk result (length steps.old.items ≤ length steps.new.items) }
{
    if !arena.is_false(function) && seen.insert(function)? {
        steps.push(Step {
            function,
            from,
            level,
            value,
        })?;
    }
    Ok(())
}

/// The keys by whose levels one came to a place, from there back.
fn keys_back(
    alloc: Global,
    levels: &KeyedLevels<'_, '_>,
    steps: &[Step],
    place: usize,
) -> Result<Vec<Literal>, NoMemory>
    requires back { LeadBack steps.now }
    requires place { place < length steps.now }
    ensures { IfOk result (λ path. All (IsThere levels.now) path.items) }
{
    let mut path = Vec::new(alloc);
    let mut at = place;
    while at > 0 {
        let step = steps[at];
        push_key(&mut path, levels, step.level, step.value)?;
        at = step.from;
    }
    Ok(path)
}

/// Puts the key of a level with its value at the end, where the level has one.
fn push_key(
    path: &mut Vec<Literal>,
    levels: &KeyedLevels<'_, '_>,
    level: u32,
    truth: bool,
) -> Result<(), NoMemory>
    requires { All (IsThere levels.now) path.old.items }
    ensures { OnOk result (All (IsThere levels.now) path.new.items) }
{
    if let Some(place) = key_on(levels, level) {
        path.push(Literal { place, truth })?;
    }
    Ok(())
}

/// The place of the key of a level.
fn key_on(levels: &KeyedLevels<'_, '_>, level: u32) -> Option<usize>
    ensures { IfSome result (λ place. place < length levels.now.keyed) }
{
    match levels.keys().binary_search_by_key(&level, |key| key.level) {
        Ok(place) => Some(place),
        Err(_) => None,
    }
}
