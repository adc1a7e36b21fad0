ghost use Rattle.std.specs.Prelude.{◌≡◌, IfOk, OnOk};
ghost use Rattle.std.specs.List.{AllZip};
ghost use Rattle.rsml_meaning.specs.Words.{Each};
ghost use Rattle.rsml_meaning.specs.Instances.{globals_of, states};
ghost use Rattle.rsml_ground.specs.Grounded.{IsGrounded};
ghost use Rattle.rsml_ground.specs.Numbers.{Keeps};
ghost use Rattle.ground_members.specs.Alike.{AddsAll};
ghost use Rattle.ground_members.specs.Members.{TransitionIs, AreTransitions};
ghost use Rattle.ground_members.specs.Scoped.{TransitionIsScoped};
ghost use Rattle.ground_members.specs.Written.{made_of, made_by, all_made_by, IsPlaced, ArePlaced};

use crate::alike::add_alike;
use crate::events::{event_number, event_numbers};
use crate::shared_transition::SharedTransition;
use crate::targets::{child, target};
use crate::written::{Written, written_transitions};
use phrase_builder::{Lookup, guard};
use rsml_ground::{Definition, GroundGuard, Phrases};
use rsml_syntax::{List, NoMemory, Text};
use state_tree::Tree;
use std::alloc::Global;

/// A transition of one component from one source. A stay has no target. States, components and events are named by
/// their places among the instances.
#[derive(Debug)]
pub struct GroundTransition {
    pub component: u32,
    pub source: u32,
    pub target: Option<u32>,
    pub event: u32,
    pub guard: GroundGuard,
    pub raises: List<u32>,
    /// Its place in its component, counted from 1.
    pub ordinal: u32,
}

impl Drop for GroundTransition {
    fn drop(self) {
        let Self {
            component: _,
            source: _,
            target: _,
            event: _,
            guard: _,
            raises: _,
            ordinal: _,
        } = self;
    }
}

// A transition as it is written, over numbers, from one of its sources.
fn transition(
    alloc: Global,
    lookup: &Lookup<'_, '_>,
    definitions: &[Definition],
    phrases: &mut Phrases,
    written: &Written<'_, '_>,
    source: &Text,
) -> Result<SharedTransition, NoMemory>
    requires before { IsGrounded (record { spec = lookup.now; phrases = phrases.old; definitions = definitions.now }) }
    requires placed { IsPlaced (states lookup.now) written.now.owner }
    requires scoped { TransitionIsScoped lookup.now (made_of (globals_of lookup.now) written.now source.now) }
    ensures after { IsGrounded (record { spec = lookup.now; phrases = phrases.new; definitions = definitions.now }) }
    ensures kept { Keeps phrases.old phrases.new }
    ensures is { IfOk result (λ x. TransitionIs phrases.new lookup.now (made_of (globals_of lookup.now) written.now source.now) x) }
{
    let owner = written.owner;
    let transition = written.transition;
    let guard = guard(
        alloc,
        lookup,
        definitions,
        phrases,
        owner.this,
        &transition.guard,
    )?;
    let raises = event_numbers(alloc, lookup, owner.this, transition.raises.as_slice())?;
    let whole = GroundTransition {
        component: owner.component,
        source: child(lookup, owner.node, source),
        target: target(lookup, owner.node, transition.target.as_ref()),
        event: event_number(lookup, owner.this, &transition.trigger),
        guard,
        raises,
        ordinal: written.ordinal,
    };
    SharedTransition::new(alloc, whole)
}

// Adds a transition as it is written, over numbers, once for each of its sources. All but the source is worked out once.
fn add_transitions(
    transitions: &mut Vec<SharedTransition>,
    alloc: Global,
    lookup: &Lookup<'_, '_>,
    definitions: &[Definition],
    phrases: &mut Phrases,
    written: &Written<'_, '_>,
) -> Result<(), NoMemory>
    requires before { IsGrounded (record { spec = lookup.now; phrases = phrases.old; definitions = definitions.now }) }
    requires placed { IsPlaced (states lookup.now) written.now.owner }
    requires scoped { Each (TransitionIsScoped lookup.now) (made_by (globals_of lookup.now) written.now) }
    ensures after { IsGrounded (record { spec = lookup.now; phrases = phrases.new; definitions = definitions.now }) }
    ensures kept { Keeps phrases.old phrases.new }
    ensures are { OnOk result (AddsAll phrases.new lookup.now (made_by (globals_of lookup.now) written.now)
        transitions.old.items transitions.new.items) }
{
    let Some((source, others)) = written.sources.split_first() else {
        return Ok(());
    };
    let first = transition(alloc, lookup, definitions, phrases, written, source)?;
    add_alike(
        transitions,
        alloc,
        lookup,
        written.owner.node,
        first,
        others,
    )
}

// How many transitions are written: as many as there is room for, where they are more.
fn count(written: &[Written<'_, '_>]) -> usize {
    let mut count: usize = 0;
    for one in written {
        count = count.saturating_add(one.sources.len());
    }
    count
}

// The transitions as they are written, over numbers.
fn transitions_from(
    alloc: Global,
    lookup: &Lookup<'_, '_>,
    definitions: &[Definition],
    phrases: &mut Phrases,
    written: &[Written<'_, '_>],
) -> Result<Vec<SharedTransition>, NoMemory>
    requires before { IsGrounded (record { spec = lookup.now; phrases = phrases.old; definitions = definitions.now }) }
    requires placed { ArePlaced (states lookup.now) written.now }
    requires scoped { Each (TransitionIsScoped lookup.now) (all_made_by (globals_of lookup.now) written.now) }
    ensures after { IsGrounded (record { spec = lookup.now; phrases = phrases.new; definitions = definitions.now }) }
    ensures kept { Keeps phrases.old phrases.new }
    ensures are { IfOk result (λ ts. AllZip (TransitionIs phrases.new lookup.now)
        (all_made_by (globals_of lookup.now) written.now) ts.items) }
{
    let mut transitions = Vec::with_capacity(alloc, count(written))?;
    for one in written {
        add_transitions(&mut transitions, alloc, lookup, definitions, phrases, one)?;
    }
    Ok(transitions)
}

/// The transitions of a specification, over numbers, in order. Phrases that their guards need are added.
pub fn ground_transitions(
    alloc: Global,
    lookup: &Lookup<'_, '_>,
    tree: &Tree<'_>,
    definitions: &[Definition],
    phrases: &mut Phrases,
) -> Result<Vec<SharedTransition>, NoMemory>
    requires before { IsGrounded (record { spec = lookup.now; phrases = phrases.old; definitions = definitions.now }) }
    requires tree { tree.now ≡ lookup.now }
    ensures after { IsGrounded (record { spec = lookup.now; phrases = phrases.new; definitions = definitions.now }) }
    ensures kept { Keeps phrases.old phrases.new }
    ensures are { IfOk result (λ ts. AreTransitions phrases.new lookup.now ts.items) }
{
    let written = written_transitions(alloc, tree)?;
    transitions_from(alloc, lookup, definitions, phrases, written.as_slice())
}
