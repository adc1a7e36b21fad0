ghost use Rattle.std.specs.Prelude.{◌≡◌, ◌≤◌, ◌<◌, length, IfOk};
ghost use Rattle.bdd_core.specs.Diagram.{IsRef};

use bdd_core::{Arena, Ref};
use rsml_base::NoMemory;

/// How many variables are added at once from the top.
const BLOCK: u32 = 1000;

/// The conjunction of the variables from `start` up to `end`, built from the last to the first.
fn block(arena: &mut Arena, start: u32, end: u32) -> Result<Ref, NoMemory>
    requires { end ≤ arena.old.levels }
    ensures levels { arena.new.levels ≡ arena.old.levels }
    ensures longer { length arena.old.nodes ≤ length arena.new.nodes }
    ensures answer { IfOk result (IsRef arena.new) }
{
    let mut all = arena.constant(true);
    for level in (start..end).rev() {
        let variable = arena.var(level)?;
        all = arena.and(variable, all)?;
    }
    Ok(all)
}

/// The conjunction of so many variables, from the last to the first. Then each call that goes down
/// all of it: the negation, a conjunction with the last variable, a choice, and the last variable
/// put true.
pub fn bottom(arena: &mut Arena, size: u32) -> Result<Ref, NoMemory>
    requires { arena.old.levels ≡ size }
    ensures { IfOk result (IsRef arena.new) }
{
    let Some(last) = size.checked_sub(1) else {
        return Ok(arena.constant(true));
    };
    let all = block(arena, 0, size)?;
    let _none = arena.not(all)?;
    let front = block(arena, 0, last)?;
    let variable = arena.var(last)?;
    let _chosen = arena.ite(front, all, variable)?;
    let _front = arena.restrict(all, last, true)?;
    arena.and(front, variable)
}

/// The conjunction of so many variables, from the first on.
pub fn top(arena: &mut Arena, size: u32) -> Result<Ref, NoMemory>
    requires { arena.old.levels ≡ size }
    ensures { IfOk result (IsRef arena.new) }
{
    let mut all = arena.constant(true);
    let mut start = 0;
    while start < size {
        let end = size.min(start.saturating_add(BLOCK));
        let next = block(arena, start, end)?;
        all = arena.and(all, next)?;
        start = end;
    }
    Ok(all)
}
