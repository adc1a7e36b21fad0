ghost use Rattle.std.specs.Prelude.{◌≡◌, IfOk, OnOk};
ghost use Rattle.std.specs.List.{AllZip};
ghost use Rattle.rsml_meaning.specs.Words.{Each};
ghost use Rattle.ground_members.specs.Alike.{IsAlike, AddsAlike};
ghost use Rattle.ground_members.specs.Scoped.{HasChild};

use crate::shared_transition::SharedTransition;
use crate::targets::child;
use phrase_builder::Lookup;
use rsml_syntax::{NoMemory, Text};
use std::alloc::Global;

// A transition from this child of the state of a number, and otherwise as another.
fn alike(
    lookup: &Lookup<'_, '_>,
    node: u32,
    other: &SharedTransition,
    source: &Text,
) -> Result<SharedTransition, NoMemory>
    requires { HasChild lookup.now node source.now }
    ensures { IfOk result (λ x. IsAlike lookup.now node other.now source.now x) }
{
    other.like(child(lookup, node, source))
}

// One like another for each of these children.
fn all_alike(
    alloc: Global,
    lookup: &Lookup<'_, '_>,
    node: u32,
    other: &SharedTransition,
    sources: &[Text],
) -> Result<Vec<SharedTransition>, NoMemory>
    requires { Each (HasChild lookup.now node) sources.now }
    ensures { IfOk result (λ xs. AllZip (IsAlike lookup.now node other.now) sources.now xs.items) }
{
    let mut transitions = Vec::with_capacity(alloc, sources.len())?;
    for source in sources {
        transitions.push(alike(lookup, node, other, source)?)?;
    }
    Ok(transitions)
}

/// Adds a transition, and then one like it for each of these children of the state of a number.
pub fn add_alike(
    transitions: &mut Vec<SharedTransition>,
    alloc: Global,
    lookup: &Lookup<'_, '_>,
    node: u32,
    first: SharedTransition,
    sources: &[Text],
) -> Result<(), NoMemory>
    requires { Each (HasChild lookup.now node) sources.now }
    ensures { OnOk result (AddsAlike lookup.now node first sources.now
        transitions.old.items transitions.new.items) }
{
    let mut others = all_alike(alloc, lookup, node, &first, sources)?;
    transitions.push(first)?;
    transitions.append(&mut others)?;
    Ok(())
}
