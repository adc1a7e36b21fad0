//! A function in place of a level, and levels forgotten.
ghost use Rattle.std.specs.Prelude.{◌||◌, true, false, IfOk};
ghost use Rattle.bdd_core.specs.Diagram.{IsRef, meaning};
ghost use Rattle.bdd_core.specs.Calls.{Keeps, Represents, with_value};
ghost use Rattle.free_levels.specs.Values.{IsForgotten};

use bdd_core::{Arena, Ref};
use rsml_base::NoMemory;

/// `f` with `g` in place of a level.
pub fn compose(arena: &mut Arena, f: Ref, level: u32, g: Ref) -> Result<Ref, NoMemory>
    requires f_ref { IsRef arena.old f }
    requires g_ref { IsRef arena.old g }
    ensures keeps { Keeps arena.old arena.new }
    ensures answer { IfOk result (Represents arena.new (λ values.
        meaning arena.old f (with_value values level (meaning arena.old g values)))) }
{
    let high = arena.restrict(f, level, true)?;
    let low = arena.restrict(f, level, false)?;
    arena.ite(g, high, low)
}

/// The function that is true exactly where `f` is at some values that differ in these levels alone.
pub fn forget(arena: &mut Arena, f: Ref, levels: &[u32]) -> Result<Ref, NoMemory>
    requires { IsRef arena.old f }
    ensures keeps { Keeps arena.old arena.new }
    ensures answer { IfOk result (IsForgotten arena.old arena.new f levels.now) }
{
    let mut out = f;
    for level in levels {
        out = forget_one(arena, out, *level)?;
    }
    Ok(out)
}

/// The function that is true where `f` is with one or the other value of the level.
fn forget_one(arena: &mut Arena, f: Ref, level: u32) -> Result<Ref, NoMemory>
    requires { IsRef arena.old f }
    ensures keeps { Keeps arena.old arena.new }
    ensures answer { IfOk result (Represents arena.new (λ values.
        meaning arena.old f (with_value values level false)
        || meaning arena.old f (with_value values level true))) }
{
    let low = arena.restrict(f, level, false)?;
    let high = arena.restrict(f, level, true)?;
    arena.or(low, high)
}
