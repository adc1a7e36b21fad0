//! The levels that a function may depend on, and keys struck off that it does not depend on.
ghost use Rattle.std.specs.Prelude.{◌≡◌, ◌<◌, ◌≤◌, ℕ, false, IfOk, OnOk, length, slice_index_or};
ghost use Rattle.bdd_core.specs.Diagram.{IsRef};
ghost use Rattle.bdd_core.specs.Calls.{Ignores};
ghost use Rattle.free_levels.specs.Keys.{AreKeys};
ghost use Rattle.keyed_levels.specs.Keyed.{keys_of};
ghost use Rattle.settled_worlds.specs.Steps.{AreStruck};
ghost use Rattle.settled_worlds.specs.Visits.{Visits};

use crate::one_key::key;
use bdd_core::{Arena, Ref};
use indexmap::IndexSet;
use keyed_levels::KeyedLevels;
use rsml_base::NoMemory;
use std::alloc::Global;

/// The levels, of so many, on which a function may depend. It does not depend on a level that is not marked. The time it takes is in
/// proportion to the levels and to the nodes that are reached from the function, however many the arena has.
pub fn used_levels(alloc: Global, arena: &Arena, count: u32, f: Ref) -> Result<Vec<bool>, NoMemory>
    requires f_ref { IsRef arena.now f }
    requires count { arena.now.levels ≡ count }
    ensures { IfOk result (λ used. (level : ℕ) → slice_index_or used.items level false ≡ false
        → Ignores arena.now f level) }
{
    let mut used = vec![in alloc; false; count as usize]?;
    let mut seen = IndexSet::new(alloc);
    seen.insert(f)?;
    let mut place = 0;
    while place < seen.len() {
        let node = seen.as_slice()[place];
        visit(arena, node, &mut seen, &mut used)?;
        place += 1;
    }
    Ok(used)
}

/// Marks the level of a node, and puts its children among those seen. A constant has neither.
fn visit(
    arena: &Arena,
    f: Ref,
    seen: &mut IndexSet<Ref>,
    used: &mut Vec<bool>,
) -> Result<(), NoMemory>
    requires f_ref { IsRef arena.now f }
    requires room { arena.now.levels ≤ length used.old.items }
    ensures { OnOk result (Visits arena.now f seen.old.keys seen.new.keys used.old.items used.new.items) }
{
    if let Some(node) = arena.branch(f) {
        used[node.level as usize] = true;
        seen.insert(node.low)?;
        seen.insert(node.high)?;
    }
    Ok(())
}

/// Whether a level is marked. A level past all is not.
pub fn is_used(used: &[bool], level: u32) -> bool
    ensures { result ≡ slice_index_or used.now level false }
{
    match used.get(level as usize) {
        Some(is) => *is,
        None => false,
    }
}

/// Strikes off the keys whose levels are not used.
pub(crate) fn strike(levels: &KeyedLevels<'_, '_>, used: &[bool], left: &mut Vec<bool>)
    requires keys { AreKeys (keys_of levels.now) }
    requires many { length left.old.items ≡ length levels.now.keyed }
    ensures { AreStruck levels.now used.now left.old.items left.new.items }
{
    for place in 0..levels.keys().len() {
        strike_key(levels, used, left, place);
    }
}

/// Strikes off the key at a place, where its level is not used.
fn strike_key(levels: &KeyedLevels<'_, '_>, used: &[bool], left: &mut Vec<bool>, place: usize)
    requires keys { AreKeys (keys_of levels.now) }
    requires many { length left.old.items ≡ length levels.now.keyed }
    requires place { place < length levels.now.keyed }
    ensures { AreStruck levels.now used.now left.old.items left.new.items }
{
    if !left[place] || is_used(used, key(levels, place).level) {
        return;
    }
    left[place] = false;
}
