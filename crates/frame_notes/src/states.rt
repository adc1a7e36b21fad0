//! States that differ. They are looked up by their paths, buses and transitions by their places.

use crate::found::{Found, Part};
use rsml_names::{buses_of, children_of, default_of, transitions_of};
use rsml_syntax::{Body, Bus, StateDecl, Text, Transition};

/// The state of a name.
fn named<'t>(states: &'t [StateDecl], name: &Text) -> Option<&'t StateDecl> {
    for state in states {
        if state.name == *name {
            return Some(state);
        }
    }
    None
}

/// How a state is made.
fn form_of(body: &Body) -> &'static str {
    match body {
        Body::Basic => "basic",
        Body::One { .. } => "one",
        Body::All { .. } => "all",
    }
}

/// Compares buses.
fn compare_buses<'t>(found: &mut Found<'t>, ones: &'t [Bus], twos: &'t [Bus]) {
    for place in 0..ones.len().max(twos.len()) {
        match (ones.get(place), twos.get(place)) {
            (Some(one), Some(two)) => {
                let parts = [
                    (one.name != two.name, "has another name"),
                    (one.members != two.members, "has other members"),
                ];
                found.compare("bus", &one.name, &two.name, &parts);
            }
            (Some(one), None) => found.only_first("bus", &one.name),
            (None, Some(two)) => found.only_second("bus", &two.name),
            (None, None) => {}
        }
    }
}

/// The parts of two transitions.
fn parts_of(one: &Transition, two: &Transition) -> [Part; 4] {
    [
        (one.source != two.source, "has another source"),
        (one.target != two.target, "has another target"),
        (one.trigger != two.trigger, "is on another event"),
        (one.raises != two.raises, "raises other events"),
    ]
}

/// Whether two transitions are the same but for their guards.
fn are_same(one: &Transition, two: &Transition) -> bool {
    for part in &parts_of(one, two) {
        if part.0 {
            return false;
        }
    }
    true
}

/// Two lists of transitions without those at their ends that are the same.
fn without_ends<'t>(
    ones: &'t [Transition],
    twos: &'t [Transition],
) -> (&'t [Transition], &'t [Transition]) {
    let (mut left, mut right) = (ones, twos);
    for _ in 0..ones.len() {
        match (left.split_last(), right.split_last()) {
            (Some((one, before)), Some((two, others))) if are_same(one, two) => {
                left = before;
                right = others;
            }
            _ => break,
        }
    }
    (left, right)
}

/// Two lists of transitions without those at their starts that are the same.
fn without_starts<'t>(
    ones: &'t [Transition],
    twos: &'t [Transition],
) -> (&'t [Transition], &'t [Transition]) {
    let (mut left, mut right) = (ones, twos);
    for _ in 0..ones.len() {
        match (left.split_first(), right.split_first()) {
            (Some((one, after)), Some((two, others))) if are_same(one, two) => {
                left = after;
                right = others;
            }
            _ => break,
        }
    }
    (left, right)
}

/// Compares transitions: those between the first and the last that differ, by their places.
fn compare_transitions<'t>(found: &mut Found<'t>, ones: &'t [Transition], twos: &'t [Transition]) {
    let (ones, twos) = without_ends(ones, twos);
    let (ones, twos) = without_starts(ones, twos);
    for place in 0..ones.len().max(twos.len()) {
        match (ones.get(place), twos.get(place)) {
            (Some(one), Some(two)) => {
                let parts = parts_of(one, two);
                found.compare("transition from", &one.source, &two.source, &parts);
            }
            (Some(one), None) => found.only_first("transition from", &one.source),
            (None, Some(two)) => found.only_second("transition from", &two.source),
            (None, None) => {}
        }
    }
}

/// Adds the states that are in the first text alone.
fn add_lost<'t>(found: &mut Found<'t>, ones: &'t [StateDecl], twos: &[StateDecl]) {
    for one in ones {
        if named(twos, &one.name).is_none() {
            found.only_first("state", &one.name);
        }
    }
}

/// Compares the parts of two bodies beside their children.
fn compare_parts<'t>(found: &mut Found<'t>, one: &'t Body, two: &'t Body) {
    if let Some(first) = default_of(one)
        && let Some(other) = default_of(two)
    {
        let parts = [(first != other, "is another one")];
        found.compare("default", first, other, &parts);
    }
    compare_buses(found, buses_of(one), buses_of(two));
    compare_transitions(found, transitions_of(one), transitions_of(two));
    add_lost(found, children_of(one), children_of(two));
}

/// Compares what a state of the second text is made of with that of the first that has its path.
#[cycle(walk)]
pub fn compare_bodies<'t>(found: &mut Found<'t>, two: &'t Body, one: &'t Body) {
    compare_parts(found, one, two);
    match two {
        Body::Basic => {}
        Body::One { children, .. } => {
            compare_children(found, children.as_slice(), children_of(one));
        }
        Body::All { children } => compare_children(found, children.as_slice(), children_of(one)),
    }
}

/// Compares children of the second text by their names with those of the first.
#[cycle(walk)]
fn compare_children<'t>(found: &mut Found<'t>, twos: &'t [StateDecl], ones: &'t [StateDecl]) {
    for two in twos {
        match named(ones, &two.name) {
            Some(one) => {
                let parts = [
                    (one.size != two.size, "has another size"),
                    (
                        form_of(&one.body) != form_of(&two.body),
                        "is of another form: basic, one or all",
                    ),
                ];
                found.compare("state", &one.name, &two.name, &parts);
                compare_bodies(found, &two.body, &one.body);
            }
            None => found.only_second("state", &two.name),
        }
    }
}
