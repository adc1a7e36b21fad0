//! What is counted of states.
#![tactic(auto, using(crate::proofs::CountRules::sums, crate::proofs::CountChildren::count_of_all))]

ghost use Rattle.std.specs.Prelude.{◌≡◌};
ghost use Rattle.std.specs.Option.{option_copied};
ghost use Rattle.rsml_syntax.specs.limits.Limits.{adds, shown};
ghost use Rattle.rsml_syntax.specs.grammar.Parts as parts;
ghost use Rattle.rsml_limits.specs.counts.Counting as spec;
ghost use Rattle.rsml_limits.specs.counts.Counting.{Shows};

use crate::counts::counted::Counted;
use crate::counts::counted_names::CountedNames;
use crate::counts::rows::guard_rows;
use rsml_names::{Buses, Globals, buses_of, nearer, transitions_of};
use rsml_syntax::{Amount, Body, NoMemory, StateDecl, Transition};
use std::alloc::Global;

/// The ground sources of a transition, among the buses of its state.
fn sources(buses: &Buses<'_>, transition: &Transition) -> u64
    ensures { result ≡ spec.sources_among buses.now transition.now }
{
    match buses.bus(&transition.source) {
        Some(bus) => bus.members.len() as u64,
        None => 1,
    }
}

/// The ground transitions of one instance of a state.
fn all_sources(buses: &Buses<'_>, transitions: &[Transition]) -> u64
    ensures { result ≡ shown (adds (spec.sources_among buses.now) transitions.now) }
{
    let mut count = 0u64;
    for transition in transitions {
        count = count.saturating_add(sources(buses, transition));
    }
    count
}

/// The ground rows of the transitions of one instance of a state.
fn all_rows(globals: &Globals<'_>, buses: &Buses<'_>, transitions: &[Transition]) -> u64
    ensures { result ≡ shown (adds (spec.transition_rows globals.now buses.now) transitions.now) }
{
    let mut count = 0u64;
    for transition in transitions {
        let rows = guard_rows(globals, &transition.guard);
        count = count.saturating_add(sources(buses, transition).saturating_mul(rows));
    }
    count
}

/// The ground transitions of a state.
fn transitions(
    alloc: Global,
    globals: &Globals<'_>,
    array: Option<&Amount>,
    body: &Body,
) -> Result<u64, NoMemory>
    ensures { Shows result
        (spec.state_transitions globals.now (option_copied array.entry) body.now) }
{
    let buses = Buses::new(alloc, buses_of(body))?;
    let each = all_sources(&buses, transitions_of(body));
    Ok(globals.many(array).saturating_mul(each))
}

/// The ground rows of the transitions of a state.
fn rows(
    alloc: Global,
    globals: &Globals<'_>,
    array: Option<&Amount>,
    body: &Body,
) -> Result<u64, NoMemory>
    ensures { Shows result (spec.instance_tests globals.now (option_copied array.entry) body.now) }
{
    let buses = Buses::new(alloc, buses_of(body))?;
    let each = all_rows(globals, &buses, transitions_of(body));
    Ok(globals.many(array).saturating_mul(each))
}

/// What is counted of a state, without what is inside it.
pub fn state(
    alloc: Global,
    names: &CountedNames<'_, '_>,
    counted: Counted,
    array: Option<&Amount>,
    body: &Body,
) -> Result<u64, NoMemory>
    ensures { Shows result
        (spec.state_count counted names.now (option_copied array.entry) body.now) }
{
    match counted {
        Counted::States => Ok(names.globals.many(array)),
        Counted::Transitions => transitions(alloc, names.globals, array, body),
        Counted::Rows => rows(alloc, names.globals, array, body),
        Counted::Events | Counted::Cells | Counted::Definitions => Ok(0),
    }
}

/// What is counted inside a state.
#[cycle(walk)]
pub fn inside(
    alloc: Global,
    names: &CountedNames<'_, '_>,
    counted: Counted,
    array: Option<&Amount>,
    body: &Body,
) -> Result<u64, NoMemory>
    ensures { Shows result
        (adds (spec.counted counted names.now)
        (parts.inside (option_copied array.entry) body.now)) }
{
    match body {
        Body::Basic => Ok(0),
        Body::One { children, .. } => all_children(
            alloc,
            names,
            counted,
            array,
            children.as_slice(),
        ),
        Body::All { children } => all_children(alloc, names, counted, array, children.as_slice()),
    }
}

/// What is counted of children, with what is inside them.
#[cycle(walk)]
fn all_children(
    alloc: Global,
    names: &CountedNames<'_, '_>,
    counted: Counted,
    array: Option<&Amount>,
    children: &[StateDecl],
) -> Result<u64, NoMemory>
    ensures { Shows result
        (adds (spec.child_count counted names.now (option_copied array.entry)) children.now) }
{
    let mut count = 0u64;
    for child in children {
        let around = nearer(child.size.as_ref(), array);
        let own = state(alloc, names, counted, around, &child.body)?;
        let within = inside(alloc, names, counted, around, &child.body)?;
        count = count.saturating_add(own).saturating_add(within);
    }
    Ok(count)
}
