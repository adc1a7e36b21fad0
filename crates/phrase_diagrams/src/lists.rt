//! Some or each of the phrases of these numbers. The last comes first, since mostly its levels are the last ones, and a function
//! grows by a few nodes where the levels of what is joined to it come before its own.
ghost use Rattle.std.specs.Prelude.{◌<◌, length, All, IfOk};
ghost use Rattle.std.specs.List.{list_any, list_all};
ghost use Rattle.bdd_core.specs.Diagram.{IsRef};
ghost use Rattle.bdd_core.specs.Calls.{Keeps, Represents};
ghost use Rattle.and_or_tables.specs.Ground.{known};
ghost use Rattle.phrase_diagrams.specs.Diagrams.{truths_at};

use bdd_core::{Arena, Ref};
use rsml_base::NoMemory;

/// Where some of these phrases is true. `diagrams` has the diagram of each phrase at the place of
/// its number.
pub fn some_of(arena: &mut Arena, diagrams: &[Ref], numbers: &[u32]) -> Result<Ref, NoMemory>
    requires diagrams { All (IsRef arena.old) diagrams.now }
    requires numbers { All (λ number. number < length diagrams.now) numbers.now }
    ensures keeps { Keeps arena.old arena.new }
    ensures answer { IfOk result (Represents arena.new (λ values.
        list_any (known (truths_at arena.old diagrams.now values)) numbers.now)) }
{
    let mut out = arena.constant(false);
    for place in (0..numbers.len()).rev() {
        out = arena.or(diagrams[numbers[place] as usize], out)?;
    }
    Ok(out)
}

/// Where each of these phrases is true. `diagrams` has the diagram of each phrase at the place of
/// its number.
pub fn each_of(arena: &mut Arena, diagrams: &[Ref], numbers: &[u32]) -> Result<Ref, NoMemory>
    requires diagrams { All (IsRef arena.old) diagrams.now }
    requires numbers { All (λ number. number < length diagrams.now) numbers.now }
    ensures keeps { Keeps arena.old arena.new }
    ensures answer { IfOk result (Represents arena.new (λ values.
        list_all (known (truths_at arena.old diagrams.now values)) numbers.now)) }
{
    let mut out = arena.constant(true);
    for place in (0..numbers.len()).rev() {
        out = arena.and(diagrams[numbers[place] as usize], out)?;
    }
    Ok(out)
}
