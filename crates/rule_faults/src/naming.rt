//! S1, S2, S3 and S14: names that are declared again, not declared, of the wrong sort, or repeated.

use crate::lists::{tell_list, tell_nearest};
use crate::near::Search;
use crate::subject::{Subject, known_name, known_sort, tell_known};
use rsml_base::Text;
use rsml_names::{Globals, Known, values_of};
use rsml_syntax::{Decl, Mention, Want};
use source_notes::{Notes, Piece, spot_of};
use source_survey::{Declared, Sort, Space, index_of};

/// How many global names are compared with one that is not declared.
const MOST_COMPARED: usize = 2000;

/// Whether two names may not be declared both.
fn disturb(first: &Declared<'_>, second: &Declared<'_>) -> bool {
    first.space == second.space
        && first.name.bytes() == second.name.bytes()
        && first.name.at() < second.name.at()
        && (first.sort != Sort::Variable || second.sort != Sort::Variable)
}

/// What declares the name before.
fn first_of<'a>(subject: &Subject<'a, '_>, again: &Declared<'a>) -> Option<Declared<'a>> {
    for first in subject.survey.declared.as_slice() {
        if disturb(first, again) {
            return Some(*first);
        }
    }
    None
}

/// Of which space names are to be different.
fn space_words(space: Space) -> &'static str {
    match space {
        Space::Global => {
            "types, their values, constants, inputs, events, macros, functions, receives and sends share one space of names"
        }
        Space::Send(_) => "the fields of a send have different names",
        Space::State(_) => "the children and the buses of a state have different names",
    }
}

fn tell_again(notes: &mut Notes<'_>, first: &Declared<'_>, again: &Declared<'_>) {
    notes.fault_four(
        spot_of(again.name),
        "{} is declared again, as {}; the first time at {}, as {}",
        Piece::Name(again.name),
        Piece::Words(again.sort.words()),
        Piece::Place(first.name.at()),
        Piece::Words(first.sort.words()),
    );
    notes.say(space_words(again.space));
}

/// S1.
pub fn declared_again(notes: &mut Notes<'_>, subject: &Subject<'_, '_>) {
    if let Some(again) = subject.declared() {
        if let Some(first) = first_of(subject, &again) {
            tell_again(notes, &first, &again);
        }
    }
}

/// What must stand at a place.
fn wanted(want: Want) -> &'static str {
    match want {
        Want::Constant => "a size or a bound is a number or a constant",
        Want::Type => "the type of an input is an enumeration or a range",
        Want::Initial => "an initial value is a number, a constant or a value of an enumeration",
        Want::Input => "an input must stand here",
        Want::Event => "an event must stand here",
        Want::Operand => "a sum is of numbers, inputs, constants or a value of an enumeration",
        Want::Macro => "a macro must stand behind `macro`",
        Want::Function => "a function must stand behind `function`",
    }
}

/// The state of this name that is declared first.
fn state_named<'a>(subject: &Subject<'a, '_>) -> Option<&'a Text> {
    for state in subject.survey.states.as_slice() {
        if state.name.bytes() == subject.name.bytes() {
            return Some(state.name);
        }
    }
    None
}

/// The global name that is most like one.
fn nearest_global<'a>(globals: &Globals<'a>, name: &'a Text) -> Option<&'a Text> {
    let mut search = Search::new(name);
    for known in globals.all().iter().take(MOST_COMPARED) {
        search.compare(known_name(known));
    }
    search.best
}

/// A name that is not declared at all.
fn not_declared(notes: &mut Notes<'_>, subject: &Subject<'_, '_>, want: Want) {
    let name = subject.name;
    notes.fault(
        spot_of(name),
        "{} is not declared; {}",
        Piece::Name(name),
        Piece::Words(wanted(want)),
    );
    let is_told = tell_nearest(notes, name, nearest_global(subject.globals, name));
    match state_named(subject) {
        Some(state) if !is_told => notes.say_two(
            "{} is a state, declared at {}; a state is asked for by `in` and its path from the top",
            Piece::Name(name),
            Piece::Place(state.at()),
        ),
        _ => {}
    }
}

/// A macro or a function that is used too early.
fn too_early(notes: &mut Notes<'_>, name: &Text, first: &Text) {
    let form = if first.at() < name.at() {
        "{} is used inside its own declaration, at {}"
    } else {
        "{} is declared later, at {}"
    };
    notes.fault(
        spot_of(name),
        form,
        Piece::Name(name),
        Piece::Place(first.at()),
    );
    notes.say("a macro or a function is declared before it is used");
}

/// S2.
pub fn undeclared(notes: &mut Notes<'_>, subject: &Subject<'_, '_>) {
    let want = match subject.used() {
        Some(used) => used.want,
        None => Want::Operand,
    };
    match subject.globals.meaning(subject.name) {
        Some(known) => too_early(notes, subject.name, known_name(known)),
        None => not_declared(notes, subject, want),
    }
}

/// What else is meant by a name of the wrong sort.
fn meant(want: Want, sort: Sort) -> Option<&'static str> {
    match (want, sort) {
        (Want::Operand, Sort::Function) => {
            Some("write `function` before the name of a function")
        }
        (Want::Operand, Sort::Macro) => {
            Some("write `macro` before the name of a macro, alone in its row")
        }
        (Want::Macro, Sort::Function) => {
            Some("write `function` before the name of a function, and compare it")
        }
        (Want::Function, Sort::Macro) => Some("write `macro` before the name of a macro"),
        (Want::Event, Sort::Receive) => Some("write the event that the receive raises"),
        (Want::Type, Sort::EnumerationValue) => Some("write the enumeration that has the value"),
        _ => None,
    }
}

fn tell_sort(notes: &mut Notes<'_>, name: &Text, want: Want, known: &Known<'_>) {
    let sort = known_sort(known);
    notes.fault_four(
        spot_of(name),
        "{} is {}; {}",
        Piece::Name(name),
        Piece::Words(sort.words()),
        Piece::Words(wanted(want)),
        Piece::Nothing,
    );
    tell_known(notes, known);
    match meant(want, sort) {
        Some(words) => notes.say(words),
        None if want == Want::Type => {}
        None => tell_list(notes, "  its values are ", values_of(known.decl)),
    }
}

/// S3.
pub fn wrong_sort(notes: &mut Notes<'_>, subject: &Subject<'_, '_>) {
    match (subject.used(), subject.globals.meaning(subject.name)) {
        (Some(used), Some(known)) => tell_sort(notes, subject.name, used.want, known),
        _ => {}
    }
}

/// The shown name in a list.
fn shown_in<'a>(subject: &Subject<'_, '_>, list: &'a [Mention]) -> Option<&'a Mention> {
    for mention in list {
        if subject.is_shown(&mention.name) {
            return Some(mention);
        }
    }
    None
}

/// The first mention in a list that is the same as a later one; else the first of its name.
fn same_in<'a>(list: &'a [Mention], later: &Mention) -> Option<&'a Text> {
    let mut named = None;
    for mention in list {
        if mention.name.bytes() == later.name.bytes() {
            let is_before = mention.name.at() < later.name.at();
            if is_before && index_of(mention) == index_of(later) {
                return Some(&mention.name);
            }
            if named.is_none() {
                named = Some(&mention.name);
            }
        }
    }
    named
}

/// Where the shown name stands before in a list.
fn before_in<'a>(subject: &Subject<'_, '_>, list: &'a [Mention]) -> Option<&'a Text> {
    let shown = shown_in(subject, list)?;
    same_in(list, shown)
}

/// The inputs of a receive.
fn inputs_of(decl: &Decl) -> &[Mention] {
    match decl {
        Decl::Receive { inputs, .. } => inputs.as_slice(),
        _ => &[],
    }
}

/// Where the shown name stands before in its list.
fn listed_before<'a>(subject: &Subject<'a, '_>) -> Option<&'a Text> {
    for decl in subject.spec.decls.as_slice() {
        if let Some(first) = before_in(subject, inputs_of(decl)) {
            return Some(first);
        }
    }
    for at in subject.survey.transitions.as_slice() {
        if let Some(first) = before_in(subject, at.transition.raises.as_slice()) {
            return Some(first);
        }
    }
    None
}

/// S14.
pub fn repeated(notes: &mut Notes<'_>, subject: &Subject<'_, '_>) {
    if let Some(first) = listed_before(subject) {
        notes.fault(
            spot_of(subject.name),
            "{} stands in the list before, at {}",
            Piece::Name(subject.name),
            Piece::Place(first.at()),
        );
        notes.say(
            "a receive lists an input once, and a transition raises an event with an index once",
        );
    }
}
