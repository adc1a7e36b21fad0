//! What transitions say of states.

use crate::events::{Event, event_of};
use crate::facts::{Fact, Facts};
use rsml_base::Text;
use rsml_names::{Globals, buses_of, children_of};
use rsml_syntax::{Body, Bus, StateDecl, Transition};
use source_survey::{StateAt, Survey};

/// The child of this name.
fn child_named<'a>(component: &'a Body, name: &Text) -> Option<&'a StateDecl> {
    for child in children_of(component) {
        if child.name.bytes() == name.bytes() {
            return Some(child);
        }
    }
    None
}

/// The bus of this name.
fn bus_named<'a>(component: &'a Body, name: &Text) -> Option<&'a Bus> {
    for bus in buses_of(component) {
        if bus.name.bytes() == name.bytes() {
            return Some(bus);
        }
    }
    None
}

/// The state at a place, where there is one.
pub fn state_at<'s, 'a>(survey: &'s Survey<'a>, place: Option<usize>) -> Option<&'s StateAt<'a>> {
    survey.states.get(place?)
}

/// A transition on an event from a child.
fn add_source(facts: &mut Facts, component: &Body, name: &Text, event: Event) {
    if let Some(child) = child_named(component, name) {
        facts.add(&child.name, Fact::IsLeft);
        facts.add(&child.name, Fact::Reacts(event));
        facts.add(&child.name, Fact::Reacts(event.at_any_index()));
    }
}

/// A transition on an event from a child, or from each member of a bus.
fn add_sources(facts: &mut Facts, component: &Body, source: &Text, event: Event) {
    match bus_named(component, source) {
        Some(bus) => {
            for member in bus.members.as_slice() {
                add_source(facts, component, member, event);
            }
        }
        None => add_source(facts, component, source, event),
    }
}

/// The states on a path from a component. Of a move from its first step to itself that step is left out.
fn add_path(facts: &mut Facts, component: &Body, source: &Text, path: &[Text]) {
    let mut body = component;
    for (depth, step) in path.iter().enumerate() {
        let child = match child_named(body, step) {
            Some(child) => child,
            None => return,
        };
        if depth > 0 || source.bytes() != step.bytes() {
            facts.add(&child.name, Fact::IsAimedAt);
        }
        body = &child.body;
    }
}

/// A transition of a component.
fn add_transition(facts: &mut Facts, component: &Body, transition: &Transition, event: Event) {
    add_sources(facts, component, &transition.source, event);
    if let Some(path) = &transition.target {
        add_path(facts, component, &transition.source, path.as_slice());
    }
}

/// A transition on an event inside a state and those around it.
fn add_inside(facts: &mut Facts, survey: &Survey<'_>, place: usize, event: Event) {
    let mut next = Some(place);
    for _ in 0..survey.states.len() {
        let state = match state_at(survey, next) {
            Some(state) => state,
            None => return,
        };
        facts.add(state.name, Fact::IsBusy);
        facts.add(state.name, Fact::ReactsInside(event.at_any_index()));
        next = state.parent;
    }
}

/// Adds what all transitions say.
pub fn add_transitions(facts: &mut Facts, globals: &Globals<'_>, survey: &Survey<'_>) {
    for at in survey.transitions.as_slice() {
        let event = event_of(globals, &at.transition.trigger);
        let state = survey.states.get(at.state);
        if let (Some(event), Some(state)) = (event, state) {
            add_transition(facts, state.body, at.transition, event);
            add_inside(facts, survey, at.state, event);
        }
    }
}
