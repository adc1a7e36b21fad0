//! Notes on states that are not entered, or do not react.

use crate::events::{Event, event_of, put_mention};
use crate::facts::{Fact, Facts};
use crate::transitions::{add_transitions, state_at};
use rsml_base::{NoMemory, Text};
use rsml_names::{Globals, children_of, default_of, transitions_of};
use rsml_syntax::{Mention, StateDecl};
use source_notes::{Notes, Piece, put_code, put_item, spot_of};
use source_survey::{StateAt, Survey};
use text_writer::{Draft, Writer};

/// How many names of a list are told.
const MOST_NAMES: usize = 12;

/// A note on a state.
fn tell(notes: &mut Notes<'_>, state: &Text, form: &str) {
    notes.note(
        spot_of(state),
        form,
        Piece::Name(state),
        Piece::Nothing,
        Piece::Nothing,
        Piece::Nothing,
    );
}

/// Whether a state is entered where its parent, which stands here, is.
fn is_entered(facts: &Facts, parent: &StateAt<'_>, name: &Text) -> bool {
    match default_of(parent.body) {
        Some(first) => first.bytes() == name.bytes() || facts.has(name, Fact::IsAimedAt),
        None => true,
    }
}

/// Tells of a state that it is never entered, where its parent is.
fn tell_missed(notes: &mut Notes<'_>, facts: &mut Facts, survey: &Survey<'_>, state: &StateAt<'_>) {
    let parent = match state_at(survey, state.parent) {
        Some(parent) => parent,
        None => return,
    };
    let is_told = facts.has(parent.name, Fact::IsMissed);
    if is_told || !is_entered(facts, parent, state.name) {
        facts.add(state.name, Fact::IsMissed);
        if !is_told {
            tell(
                notes,
                state.name,
                "the state {} is entered by no transition",
            );
        }
    }
}

/// Whether a fact is known of the state at a place, or of one around it.
fn is_known_around(facts: &Facts, survey: &Survey<'_>, place: usize, fact: Fact) -> bool {
    let mut next = Some(place);
    for _ in 0..survey.states.len() {
        let state = match state_at(survey, next) {
            Some(state) => state,
            None => return false,
        };
        if facts.has(state.name, fact) {
            return true;
        }
        next = state.parent;
    }
    false
}

/// Whether a state reacts to some event, itself or inside.
fn is_awake(facts: &Facts, state: &Text) -> bool {
    facts.has(state, Fact::IsLeft) || facts.has(state, Fact::IsBusy)
}

/// Tells which children react to no event.
fn tell_sleepers(notes: &mut Notes<'_>, facts: &Facts, children: &[StateDecl]) {
    for child in children {
        if !is_awake(facts, &child.name) {
            tell(
                notes,
                &child.name,
                "the state {} reacts to no event, so it is never left",
            );
        }
    }
}

/// Whether a state reacts to other events, but not to this one.
fn is_deaf(facts: &Facts, state: &Text, event: Event) -> bool {
    is_awake(facts, state)
        && !facts.has(state, Fact::Reacts(event))
        && !facts.has(state, Fact::ReactsInside(event.at_any_index()))
}

/// The first child that reacts to other events, but not to this one.
fn first_deaf<'a>(facts: &Facts, children: &'a [StateDecl], event: Event) -> Option<&'a Text> {
    for child in children {
        if is_deaf(facts, &child.name, event) {
            return Some(&child.name);
        }
    }
    None
}

/// How many children react to other events, but not to this one.
fn deaf_count(facts: &Facts, children: &[StateDecl], event: Event) -> usize {
    let mut count: usize = 0;
    for child in children {
        if is_deaf(facts, &child.name, event) {
            count = count.saturating_add(1);
        }
    }
    count
}

/// Puts the names of so many children that react to other events, but not to this one. Behind the most that are told stands "others".
fn put_deaf(line: &mut Draft, facts: &Facts, children: &[StateDecl], event: Event, count: usize) {
    let items = count.min(MOST_NAMES + 1);
    let mut place: usize = 0;
    for child in children {
        if place < MOST_NAMES && is_deaf(facts, &child.name, event) {
            put_item(line, place, items, " and ", child.name.bytes());
            place = place.saturating_add(1);
        }
    }
    if count > MOST_NAMES {
        line.put(b"others");
    }
}

/// Tells which children of a component do not react to an event, where they are no more than the others.
fn tell_deaf(
    notes: &mut Notes<'_>,
    facts: &Facts,
    component: &StateAt<'_>,
    trigger: &Mention,
    event: Event,
) {
    let children = children_of(component.body);
    let count = deaf_count(facts, children, event);
    let first = match first_deaf(facts, children, event) {
        Some(first) => first,
        None => return,
    };
    if count > children.len().saturating_sub(count) {
        return;
    }
    let spot = spot_of(first);
    let mut line = notes.note_line(spot.at);
    put_deaf(&mut line, facts, children, event, count);
    line.put(if count == 1 { b" does" } else { b" do" });
    line.put(b" not react to the event ");
    put_mention(&mut line, trigger);
    line.put(b"; other children of ");
    put_code(&mut line, component.name.bytes());
    line.put(b" do");
    notes.keep_at(line, spot);
}

/// Where states stand, and what the names of events mean.
#[derive(Clone, Copy)]
struct Scene<'s, 'g, 'a> {
    globals: &'s Globals<'g>,
    survey: &'s Survey<'a>,
}

/// Tells which children of the component at a place do not react to the event that is mentioned, once for each event.
fn tell_event(
    notes: &mut Notes<'_>,
    facts: &mut Facts,
    scene: Scene<'_, '_, '_>,
    place: usize,
    trigger: &Mention,
) {
    let state = scene.survey.states.get(place);
    let event = event_of(scene.globals, trigger);
    if let (Some(state), Some(event)) = (state, event) {
        let around = Fact::Reacts(event.at_any_index());
        if facts.add(state.name, Fact::WasAsked(event))
            && !is_known_around(facts, scene.survey, place, around)
        {
            tell_deaf(notes, facts, state, trigger, event);
        }
    }
}

/// Notes on the children of the component at a place.
fn tell_component(
    notes: &mut Notes<'_>,
    facts: &mut Facts,
    scene: Scene<'_, '_, '_>,
    place: usize,
    state: &StateAt<'_>,
) {
    let transitions = transitions_of(state.body);
    if !transitions.is_empty() && !is_known_around(facts, scene.survey, place, Fact::IsLeft) {
        tell_sleepers(notes, facts, children_of(state.body));
    }
    for transition in transitions {
        tell_event(notes, facts, scene, place, &transition.trigger);
    }
}

/// Notes on states, by what their transitions say.
fn tell_each(notes: &mut Notes<'_>, facts: &mut Facts, scene: Scene<'_, '_, '_>) {
    for (place, state) in scene.survey.states.as_slice().iter().enumerate() {
        tell_missed(notes, facts, scene.survey, state);
        tell_component(notes, facts, scene, place, state);
    }
}

/// Notes on states.
pub fn tell_states(
    notes: &mut Notes<'_>,
    globals: &Globals<'_>,
    survey: &Survey<'_>,
) -> Result<(), NoMemory> {
    let mut facts = Facts::new(notes.alloc());
    add_transitions(&mut facts, globals, survey);
    tell_each(notes, &mut facts, Scene { globals, survey });
    facts.whole()
}
