//! Keys made exact and cells forgotten, one after another.
ghost use Rattle.std.specs.Prelude.{◌≡◌, ◌<◌, ℕ, Bool, false, All, IfOk, length};
ghost use Rattle.bdd_core.specs.Diagram.{IsRef, meaning};
ghost use Rattle.bdd_core.specs.Calls.{Keeps};
ghost use Rattle.free_levels.specs.Values.{is_in, IgnoresAll};
ghost use Rattle.free_levels.specs.Keys.{Keys, AreKeys, IsExact, AreExact, key_at, IsMade, AreMade, IsCell, levels_of};
ghost use Rattle.free_levels.specs.Settle.{IsSettled};
ghost use Rattle.free_levels.specs.Stages.{is_left, FewerLeft, IsStage};

use crate::cell::Cell;
use crate::key::Key;
use crate::levels::{compose, forget};
use bdd_core::{Arena, Ref};
use rsml_base::NoMemory;
use std::alloc::Global;

/// A function that is false everywhere exactly where no lawful values make `f` true: values at
/// which the level of each key has the value of its function. The levels of a cell are forgotten as
/// soon as the keys that read it are exact. Those of a cell that is left out of `cells` stay, and
/// the function tells at which of their values `f` can be true. The order of the cells is free.
pub fn settle(
    alloc: Global,
    arena: &mut Arena,
    f: Ref,
    keys: &[Key],
    cells: &[Cell],
) -> Result<Ref, NoMemory>
    requires f_ref { IsRef arena.old f }
    requires keys { All (IsMade arena.old) keys.now }
    requires cells { All (AreMade arena.old keys.now) cells.now }
    ensures keeps { Keeps arena.old arena.new }
    ensures is_ref { IfOk result (IsRef arena.new) }
    ensures answer { IfOk result (λ r. (all : Keys) → AreKeys all → AreExact arena.old all keys.now
        → All (IsCell all) cells.now
        → IsSettled all (levels_of cells.now) (meaning arena.old f) (meaning arena.new r)) }
{
    let mut left = vec![in alloc; true; keys.len()]?;
    let mut out = f;
    for cell in cells {
        out = sweep(arena, out, keys, cell, &mut left)?;
        if arena.is_false(out) {
            return Ok(out);
        }
    }
    for place in 0..keys.len() {
        out = make_key_exact(arena, out, keys, place, &mut left)?;
    }
    Ok(out)
}

/// Makes the keys exact that read a cell, where they are left, and forgets the cell's levels. A
/// function that is false before that is the answer. `left` tells of each key whether it is left.
pub fn sweep(
    arena: &mut Arena,
    f: Ref,
    keys: &[Key],
    cell: &Cell,
    left: &mut Vec<bool>,
) -> Result<Ref, NoMemory>
    requires f_ref { IsRef arena.old f }
    requires keys { AreMade arena.old keys.now cell.now }
    requires len { length left.old.items ≡ length keys.now }
    ensures keeps { Keeps arena.old arena.new }
    ensures left { FewerLeft left.old.items left.new.items }
    ensures is_ref { IfOk result (IsRef arena.new) }
    ensures stage { IfOk result (λ r. (all : Keys) → AreKeys all → AreExact arena.old all keys.now
        → IsCell all cell.now
        → IsStage all (is_in cell.now.levels.items) left.old.items left.new.items
        (meaning arena.old f) (meaning arena.new r)) }
    ensures gone { IfOk result (λ r. IgnoresAll (meaning arena.new r) cell.now.levels.items) }
{
    let mut out = f;
    for place in &cell.keys {
        out = make_key_exact(arena, out, keys, *place, left)?;
        if arena.is_false(out) {
            return Ok(out);
        }
    }
    forget(arena, out, &cell.levels)
}

/// Makes the key at a place exact, where it is left.
fn make_key_exact(
    arena: &mut Arena,
    f: Ref,
    keys: &[Key],
    place: usize,
    left: &mut Vec<bool>,
) -> Result<Ref, NoMemory>
    requires f_ref { IsRef arena.old f }
    requires place { place < length keys.now }
    requires made { IsMade arena.old (key_at keys.now place) }
    requires len { length left.old.items ≡ length keys.now }
    ensures keeps { Keeps arena.old arena.new }
    ensures left { FewerLeft left.old.items left.new.items }
    ensures done { is_left left.new.items place ≡ false }
    ensures is_ref { IfOk result (IsRef arena.new) }
    ensures stage { IfOk result (λ r. (all : Keys) → AreKeys all → AreExact arena.old all keys.now
        → IsStage all (λ level. false) left.old.items left.new.items (meaning arena.old f) (meaning arena.new r)) }
{
    let key = keys[place];
    let exact = key.exact.unwrap();
    make_exact(arena, f, place, key.level, exact, left)
}

/// Puts the function of a key in place of its level, where the key is left.
pub fn make_exact(
    arena: &mut Arena,
    f: Ref,
    place: usize,
    level: u32,
    exact: Ref,
    left: &mut Vec<bool>,
) -> Result<Ref, NoMemory>
    requires f_ref { IsRef arena.old f }
    requires exact_ref { IsRef arena.old exact }
    requires place { place < length left.old.items }
    ensures keeps { Keeps arena.old arena.new }
    ensures left { FewerLeft left.old.items left.new.items }
    ensures done { is_left left.new.items place ≡ false }
    ensures is_ref { IfOk result (IsRef arena.new) }
    ensures stage { IfOk result (λ r. (all : Keys) → AreKeys all → all.count ≡ length left.old.items
        → IsExact arena.old all place level exact
        → IsStage all (λ level. false) left.old.items left.new.items
        (meaning arena.old f) (meaning arena.new r)) }
{
    if !left[place] {
        return Ok(f);
    }
    left[place] = false;
    compose(arena, f, level, exact)
}
