ghost use Rattle.std.specs.Prelude.{◌≡◌, [], ◌+◌, ◌<◌, ◌++◌, IfOk, OnOk, flat_map, length, map};
ghost use Rattle.rsml_syntax.specs.rules.Globals.{Globals};
ghost use Rattle.rsml_meaning.specs.Words.{numbered};
ghost use Rattle.rsml_meaning.specs.Instances.{states, components};
ghost use Rattle.rsml_meaning.specs.Transitions as spec;
ghost use Rattle.ground_members.specs.Written.{component_at, made_from, made_at, all_made_by, of_state, ArePlaced, Adds};

use rsml_names::{Buses, buses_of, transitions_of};
use rsml_syntax::{Bus, NoMemory, Text, Transition};
use state_tree::{StepRef, Tree};
use std::alloc::Global;
use std::slice;

/// The component that transitions belong to: its numbers among the components and among the states, its path, and the
/// index of the innermost array on it.
#[derive(Clone, Copy)]
pub struct Owner<'a, 't> {
    pub component: u32,
    pub node: u32,
    pub path: &'t [StepRef<'a>],
    pub this: u8,
}

/// A transition of one component, as it is written, with the names of the children that it leads from.
#[derive(Clone, Copy)]
pub struct Written<'a, 't> {
    pub owner: Owner<'a, 't>,
    pub ordinal: u32,
    pub sources: &'a [Text],
    pub transition: &'a Transition,
}

/// The number of a place, counted from 1.
pub fn ordinal_of(place: usize) -> Result<u32, NoMemory>
    ensures { IfOk result (λ n. n ≡ place + 1) }
{
    if place >= u32::MAX as usize {
        return Err(NoMemory);
    }
    Ok(place as u32 + 1)
}

// The index of the innermost array state on a path, 0 where there is none.
fn innermost(path: &[StepRef<'_>]) -> u8
    ensures { result ≡ spec.innermost path.now }
{
    let mut index = 0;
    for step in path {
        if step.index != 0 {
            index = step.index;
        }
    }
    index
}

// The children that a source stands for: the members of a bus, or the one of that name.
fn sources_of<'a>(buses: &Buses<'a>, source: &'a Text) -> &'a [Text]
    ensures { result.now ≡ spec.sources (component_at [] buses.now []) source.now }
{
    match buses.bus(source) {
        Some(bus) => bus.members.as_slice(),
        None => slice::from_ref(source),
    }
}

// Adds a transition.
fn add_transition<'a, 't>(
    written: &mut Vec<Written<'a, 't>>,
    owner: Owner<'a, 't>,
    ordinal: u32,
    sources: &'a [Text],
    transition: &'a Transition,
) -> Result<(), NoMemory>
    ensures { OnOk result (Adds owner.entry
        (λ g. map (made_from g owner.entry.path.now ordinal transition.now) sources.now)
        written.old.items written.new.items) }
{
    written.push(Written {
        owner,
        ordinal,
        sources,
        transition,
    })?;
    Ok(())
}

// Adds transitions between these buses.
fn add_transitions<'a, 't>(
    written: &mut Vec<Written<'a, 't>>,
    owner: Owner<'a, 't>,
    buses: &Buses<'a>,
    transitions: &'a [Transition],
) -> Result<(), NoMemory>
    ensures { OnOk result (Adds owner.entry
        (λ g. flat_map (made_at g owner.entry.path.now buses.now) (numbered transitions.now))
        written.old.items written.new.items) }
{
    for (place, transition) in transitions.iter().enumerate() {
        let ordinal = ordinal_of(place)?;
        let sources = sources_of(buses, &transition.source);
        add_transition(written, owner, ordinal, sources, transition)?;
    }
    Ok(())
}

// Adds the transitions of a component.
fn add_component<'a, 't>(
    alloc: Global,
    written: &mut Vec<Written<'a, 't>>,
    owner: Owner<'a, 't>,
    buses: &'a [Bus],
    transitions: &'a [Transition],
) -> Result<(), NoMemory>
    ensures { OnOk result (Adds owner.entry
        (λ g. flat_map (made_at g owner.entry.path.now buses.now) (numbered transitions.now))
        written.old.items written.new.items) }
{
    let buses = Buses::new(alloc, buses)?;
    add_transitions(written, owner, &buses, transitions)
}

// Adds the transitions of a state, where it is a component.
#[tactic(auto, using(crate::proofs::Adding::none_made, crate::proofs::Adding::state_made, crate::proofs::Adding::state_placed))]
fn add_state<'a, 't>(
    alloc: Global,
    written: &mut Vec<Written<'a, 't>>,
    tree: &'t Tree<'a>,
    node: u32,
) -> Result<(), NoMemory>
    requires { node < length (states tree.now) }
    ensures made { OnOk result ((g : Globals) →
        all_made_by g written.new.items ≡ all_made_by g written.old.items ++ of_state g tree.now node) }
    ensures placed { OnOk result (ArePlaced (states tree.now) written.old.items
        → ArePlaced (states tree.now) written.new.items) }
{
    let nodes = tree.states();
    let Some(component) = nodes.component_of(node) else {
        return Ok(());
    };
    let path = nodes.path(node).unwrap();
    let body = nodes.body(node).unwrap();
    let owner = Owner {
        component,
        node,
        path,
        this: innermost(path),
    };
    add_component(alloc, written, owner, buses_of(body), transitions_of(body))
}

/// The transitions of all components, as they are written.
pub fn written_transitions<'a, 't>(
    alloc: Global,
    tree: &'t Tree<'a>,
) -> Result<Vec<Written<'a, 't>>, NoMemory>
    ensures made { IfOk result (λ v. (g : Globals) → all_made_by g v.items
        ≡ flat_map (spec.transitions_of g) (components tree.now)) }
    ensures placed { IfOk result (λ v. ArePlaced (states tree.now) v.items) }
{
    let mut written = Vec::new(alloc);
    for node in 0..tree.nodes() {
        add_state(alloc, &mut written, tree, node)?;
    }
    Ok(written)
}
