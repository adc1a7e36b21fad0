ghost use Rattle.std.specs.Prelude.{◌≡◌, IfOk};
ghost use Rattle.bdd_core.specs.Diagram.{IsRef};

use crate::tables::tables;
use bdd_core::{Arena, Ref};
use rsml_base::NoMemory;

/// How many levels a part has.
const PART: u32 = 5;

/// How many parts are forgotten, the first ones.
const FORGOTTEN: u32 = 6;

/// What is true with one value of a level or with the other.
fn without(arena: &mut Arena, f: Ref, level: u32) -> Result<Ref, NoMemory>
    requires { IsRef arena.old f }
    ensures { IfOk result (IsRef arena.new) }
{
    let low = arena.restrict(f, level, false)?;
    let high = arena.restrict(f, level, true)?;
    arena.or(low, high)
}

/// What is left of so many random tables where the first levels are forgotten, one part after another.
pub fn forgotten(arena: &mut Arena, count: u32) -> Result<Ref, NoMemory>
    requires { arena.old.levels ≡ 128 }
    ensures { IfOk result (IsRef arena.new) }
{
    let mut left = tables(arena, count)?;
    for part in 0..FORGOTTEN {
        let first = PART * part;
        let levels = [first, first + 1, first + 2, first + 3, first + 4];
        left = arena.forget(left, &levels)?;
    }
    Ok(left)
}

/// The same, one level after another.
pub fn singly(arena: &mut Arena, count: u32) -> Result<Ref, NoMemory>
    requires { arena.old.levels ≡ 128 }
    ensures { IfOk result (IsRef arena.new) }
{
    let mut left = tables(arena, count)?;
    for level in 0..PART * FORGOTTEN {
        left = without(arena, left, level)?;
    }
    Ok(left)
}
