//! S9 to S13: paths, children, buses, sources, targets and arrays.

use crate::lists::{put_name, tell_nearest};
use crate::near::Search;
use crate::subject::Subject;
use rsml_base::Text;
use rsml_names::{buses_of, children_of, default_of};
use rsml_syntax::{Body, Bus, Mention, StateDecl, Transition};
use source_notes::{Notes, Piece, spot_of};
use source_survey::{StateAt, TransitionAt};
use text_writer::Draft;

/// The greatest number of children.
const MOST_CHILDREN: usize = 64;

/// The child of a name.
pub fn child_named<'a>(body: &'a Body, name: &Text) -> Option<&'a StateDecl> {
    for child in children_of(body) {
        if child.name.bytes() == name.bytes() {
            return Some(child);
        }
    }
    None
}

/// The child or bus that is most like a name.
fn nearest_member<'a>(
    name: &'a Text,
    children: &'a [StateDecl],
    buses: &'a [Bus],
) -> Option<&'a Text> {
    let mut search = Search::new(name);
    for child in children {
        search.compare(&child.name);
    }
    for bus in buses {
        search.compare(&bus.name);
    }
    search.best
}

fn put_members(line: &mut Draft, children: &[StateDecl], buses: &[Bus]) {
    let count = children.len().saturating_add(buses.len());
    for (place, child) in children.iter().enumerate() {
        put_name(line, place, count, &child.name);
    }
    for (place, bus) in buses.iter().enumerate() {
        put_name(line, place.saturating_add(children.len()), count, &bus.name);
    }
}

/// Tells children and buses, and the one that is most like a name.
fn tell_members(
    notes: &mut Notes<'_>,
    name: &Text,
    words: &str,
    children: &[StateDecl],
    buses: &[Bus],
) {
    tell_nearest(notes, name, nearest_member(name, children, buses));
    if children.is_empty() && buses.is_empty() {
        return;
    }
    let mut line = notes.line(words);
    put_members(&mut line, children, buses);
    notes.keep(line);
}

/// Tells the children of a state, and the one that is most like a name.
fn tell_children(notes: &mut Notes<'_>, name: &Text, body: &Body) {
    tell_members(
        notes,
        name,
        "  the children there are ",
        children_of(body),
        &[],
    );
}

/// A step of a path that is no child of the one before it.
fn no_child<'a>(notes: &mut Notes<'_>, parent: &'a Text, step: &'a Text, body: &Body) {
    notes.fault(
        spot_of(step),
        "{} is no child of {}",
        Piece::Name(step),
        Piece::Name(parent),
    );
    if children_of(body).is_empty() {
        notes.say_one("{} has no children", Piece::Name(parent));
    } else {
        tell_children(notes, step, body);
    }
}

/// The path whose last name is shown.
fn path_of<'a>(subject: &Subject<'a, '_>) -> Option<&'a [Mention]> {
    for path in subject.survey.paths.as_slice() {
        if let Some(last) = path.steps.last() {
            if subject.is_shown(&last.name) {
                return Some(path.steps);
            }
        }
    }
    None
}

/// The later steps of a path.
fn wrong_steps(notes: &mut Notes<'_>, subject: &Subject<'_, '_>, steps: &[Mention]) {
    let mut parent = &subject.spec.top;
    let mut body = &subject.spec.body;
    for step in steps {
        match child_named(body, &step.name) {
            Some(child) => {
                parent = &child.name;
                body = &child.body;
            }
            None => return no_child(notes, parent, &step.name, body),
        }
    }
}

/// A path that begins wrong; whether it does.
fn tell_start<'a>(notes: &mut Notes<'_>, first: &'a Mention, top: &'a Text) -> bool {
    if first.name.bytes() != top.bytes() {
        notes.fault(
            spot_of(&first.name),
            "the path begins with {}; a path after `in` begins with the top state {}",
            Piece::Name(&first.name),
            Piece::Name(top),
        );
        return true;
    }
    if first.index.is_some() {
        notes.fault(
            spot_of(&first.name),
            "the top state {} has no index",
            Piece::Name(top),
            Piece::Nothing,
        );
        return true;
    }
    false
}

/// S9.
pub fn wrong_path(notes: &mut Notes<'_>, subject: &Subject<'_, '_>) {
    if let Some([first, rest @ ..]) = path_of(subject) {
        if !tell_start(notes, first, &subject.spec.top) {
            wrong_steps(notes, subject, rest);
        }
    }
}

/// The state that is shown.
fn state_of<'a>(subject: &Subject<'a, '_>) -> Option<StateAt<'a>> {
    for state in subject.survey.states.as_slice() {
        if subject.is_shown(state.name) {
            return Some(*state);
        }
    }
    None
}

/// A default that is no child.
fn wrong_default<'a>(notes: &mut Notes<'_>, state: &StateAt<'a>, first: &'a Text) {
    notes.fault(
        spot_of(first),
        "the default {} is no child of {}",
        Piece::Name(first),
        Piece::Name(state.name),
    );
    tell_children(notes, first, state.body);
}

/// Tells what is wrong with the children of a state, or with its default.
fn tell_state(notes: &mut Notes<'_>, state: &StateAt<'_>) {
    let children = children_of(state.body).len();
    if children == 0 || MOST_CHILDREN < children {
        notes.fault(
            spot_of(state.name),
            "the state {} has {} children; a `one` or `all` state has 1 to 64",
            Piece::Name(state.name),
            Piece::Count(children),
        );
    } else if let Some(first) = default_of(state.body) {
        wrong_default(notes, state, first);
    }
}

/// S10.
pub fn wrong_children(notes: &mut Notes<'_>, subject: &Subject<'_, '_>) {
    if let Some(state) = state_of(subject) {
        tell_state(notes, &state);
    }
}

/// The bus of a state that is shown.
fn bus_in<'a>(subject: &Subject<'a, '_>, body: &'a Body) -> Option<&'a Bus> {
    for bus in buses_of(body) {
        if subject.is_shown(&bus.name) {
            return Some(bus);
        }
    }
    None
}

/// The first member of a bus that is no child.
fn stranger<'a>(bus: &'a Bus, body: &Body) -> Option<&'a Text> {
    for member in bus.members.as_slice() {
        if child_named(body, member).is_none() {
            return Some(member);
        }
    }
    None
}

/// The first of some names that is this one.
fn first_same<'a>(names: &'a [Text], name: &Text) -> Option<&'a Text> {
    for other in names {
        if other.bytes() == name.bytes() {
            return Some(other);
        }
    }
    None
}

/// The first member of a bus that stands there before, and where.
fn member_again(bus: &Bus) -> Option<(&Text, &Text)> {
    let members = bus.members.as_slice();
    for member in members {
        let first = first_same(members, member)?;
        if first.at() < member.at() {
            return Some((first, member));
        }
    }
    None
}

fn is_bus(body: &Body, name: &Text) -> bool {
    for bus in buses_of(body) {
        if bus.name.bytes() == name.bytes() {
            return true;
        }
    }
    false
}

/// A member of a bus that is no child of its component.
fn no_member<'a>(notes: &mut Notes<'_>, bus: &'a Text, member: &'a Text, state: &StateAt<'a>) {
    notes.fault_four(
        spot_of(member),
        "the member {} of the bus {} is no child of {}",
        Piece::Name(member),
        Piece::Name(bus),
        Piece::Name(state.name),
        Piece::Nothing,
    );
    if is_bus(state.body, member) {
        notes.say("a bus is no member of a bus");
    }
    tell_children(notes, member, state.body);
}

/// A member that stands in a bus before.
fn repeated_member(notes: &mut Notes<'_>, bus: &Bus) {
    if let Some((first, member)) = member_again(bus) {
        notes.fault_four(
            spot_of(member),
            "the member {} of the bus {} stands there before, at {}",
            Piece::Name(member),
            Piece::Name(&bus.name),
            Piece::Place(first.at()),
            Piece::Nothing,
        );
    }
}

/// S11.
pub fn wrong_bus(notes: &mut Notes<'_>, subject: &Subject<'_, '_>) {
    for state in subject.survey.states.as_slice() {
        if let Some(bus) = bus_in(subject, state.body) {
            return match stranger(bus, state.body) {
                Some(member) => no_member(notes, &bus.name, member, state),
                None => repeated_member(notes, bus),
            };
        }
    }
}

/// The path of a target.
fn target_of(transition: &Transition) -> &[Text] {
    match &transition.target {
        Some(path) => path.as_slice(),
        None => &[],
    }
}

/// Which end of a transition is shown.
#[derive(Clone, Copy)]
enum End<'a> {
    Source(&'a Text),
    Target(&'a [Text]),
}

fn shown_end<'a>(subject: &Subject<'a, '_>, transition: &'a Transition) -> Option<End<'a>> {
    if subject.is_shown(&transition.source) {
        return Some(End::Source(&transition.source));
    }
    let target = target_of(transition);
    if subject.is_shown(target.last()?) {
        return Some(End::Target(target));
    }
    None
}

/// The end that is shown, and the transition.
fn end_of<'a>(subject: &Subject<'a, '_>) -> Option<(End<'a>, TransitionAt<'a>)> {
    for at in subject.survey.transitions.as_slice() {
        if let Some(end) = shown_end(subject, at.transition) {
            return Some((end, *at));
        }
    }
    None
}

/// A source that is neither child nor bus.
fn wrong_source<'a>(notes: &mut Notes<'_>, state: &StateAt<'a>, source: &'a Text) {
    notes.fault(
        spot_of(source),
        "the source {} is neither a child nor a bus of {}",
        Piece::Name(source),
        Piece::Name(state.name),
    );
    tell_members(
        notes,
        source,
        "  its children and buses are ",
        children_of(state.body),
        buses_of(state.body),
    );
}

/// Tells where targets begin.
fn tell_begin(notes: &mut Notes<'_>, state: &Text, top: &Text, step: &Text) {
    if step.bytes() == top.bytes() || step.bytes() == state.bytes() {
        notes.say_one(
            "a target begins with a child of the state around, here of {}; only paths after `in` begin at the top",
            Piece::Name(state),
        );
    }
}

/// A target that leads into an array.
fn into_array(notes: &mut Notes<'_>, step: &Text, array: &Text) {
    notes.fault(
        spot_of(step),
        "the target leads into the array {}, declared at {}",
        Piece::Name(step),
        Piece::Place(array.at()),
    );
}

/// A target that is no state, or an array.
fn wrong_target<'a>(notes: &mut Notes<'_>, state: &StateAt<'a>, top: &Text, target: &'a [Text]) {
    let mut parent = state.name;
    let mut body = state.body;
    for step in target {
        let child = match child_named(body, step) {
            Some(child) => child,
            None => {
                no_child(notes, parent, step, body);
                return tell_begin(notes, state.name, top, step);
            }
        };
        if child.size.is_some() {
            return into_array(notes, step, &child.name);
        }
        parent = &child.name;
        body = &child.body;
    }
}

/// S12.
pub fn wrong_ends(notes: &mut Notes<'_>, subject: &Subject<'_, '_>) {
    let (end, at) = match end_of(subject) {
        Some(found) => found,
        None => return,
    };
    if let Some(state) = subject.survey.states.get(at.state) {
        match end {
            End::Source(source) => wrong_source(notes, state, source),
            End::Target(target) => wrong_target(notes, state, &subject.spec.top, target),
        }
    }
}

/// The innermost array around a state.
fn array_around<'a>(subject: &Subject<'a, '_>, state: &StateAt<'a>) -> Option<&'a Text> {
    let mut parent = state.parent;
    for _ in 0..subject.survey.states.len() {
        let around = subject.survey.states.get(parent?)?;
        if around.size.is_some() {
            return Some(around.name);
        }
        parent = around.parent;
    }
    None
}

/// Tells why an array may not stand where it does.
fn tell_array<'a>(notes: &mut Notes<'_>, name: &'a Text, around: Option<&'a Text>) {
    match around {
        Some(around) => notes.fault_four(
            spot_of(name),
            "the array {} lies inside the array {}, declared at {}",
            Piece::Name(name),
            Piece::Name(around),
            Piece::Place(around.at()),
            Piece::Nothing,
        ),
        None => notes.fault(
            spot_of(name),
            "the array {} is a child of a `one` state; arrays are children of `all` states",
            Piece::Name(name),
            Piece::Nothing,
        ),
    }
}

/// S13.
pub fn wrong_array(notes: &mut Notes<'_>, subject: &Subject<'_, '_>) {
    if let Some(state) = state_of(subject) {
        tell_array(notes, state.name, array_around(subject, &state));
    }
}
