//! Numbers as the levels of a part spell them.
ghost use Rattle.std.specs.Prelude.{◌≡◌, ◌<◌, ◌^◌, ◌&&◌, IfOk};
ghost use Rattle.bdd_core.specs.Diagram.{IsRef, meaning};
ghost use Rattle.bdd_core.specs.Calls.{Keeps, Represents};
ghost use Rattle.spelled_numbers.specs.Sums.{AreLevels, total_weight};
ghost use Rattle.guard_encode.specs.Spelling as spec;

use bdd_core::{Arena, Ref};
use rsml_base::NoMemory;
use spelled_numbers::Weighted;

/// Where the levels of a part have the values by which a number is spelled: a level is true where the later ones are not enough.
pub(crate) fn spelled(arena: &mut Arena, bits: &[Weighted], number: u64) -> Result<Ref, NoMemory>
    requires levels { AreLevels arena.old bits.now }
    requires small { total_weight bits.now < 2 ^ 64 }
    ensures keeps { Keeps arena.old arena.new }
    ensures answer { IfOk result (Represents arena.new (spec.is_spelled bits.now number)) }
{
    match bits.split_first() {
        None => Ok(arena.constant(true)),
        Some((bit, later)) => {
            let is = total(later) < number;
            let rest = spelled(arena, later, left_after(number, bit.weight, is))?;
            with_level(arena, rest, bit.level, is)
        }
    }
}

/// What is left of a number after a level with this weight, which is true or not.
fn left_after(number: u64, weight: u64, is: bool) -> u64
    ensures { result ≡ spec.left_after number weight is }
{
    if is {
        number.saturating_sub(weight)
    } else {
        number
    }
}

/// The sum of all weights.
fn total(bits: &[Weighted]) -> u64
    requires { total_weight bits.now < 2 ^ 64 }
    ensures { result ≡ total_weight bits.now }
{
    let mut total = 0;
    for bit in bits {
        total += bit.weight;
    }
    total
}

/// Where `f` is true and a level has this value.
fn with_level(arena: &mut Arena, f: Ref, level: u32, value: bool) -> Result<Ref, NoMemory>
    requires f_ref { IsRef arena.old f }
    requires level { level < arena.old.levels }
    ensures keeps { Keeps arena.old arena.new }
    ensures answer { IfOk result (Represents arena.new (λ values. spec.has_value values level value && meaning arena.old f values)) }
{
    let is = has_value(arena, level, value)?;
    arena.and(is, f)
}

/// Where a level has this value.
fn has_value(arena: &mut Arena, level: u32, value: bool) -> Result<Ref, NoMemory>
    requires { level < arena.old.levels }
    ensures keeps { Keeps arena.old arena.new }
    ensures answer { IfOk result (Represents arena.new (λ values. spec.has_value values level value)) }
{
    let is = arena.var(level)?;
    if value { Ok(is) } else { arena.not(is) }
}
