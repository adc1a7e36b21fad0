//! S4, S5 and S6: ranges, sizes, bounds and indices.

use crate::spots::{rest_behind, token_behind};
use crate::state_faults::child_named;
use crate::subject::{Subject, known_name};
use rsml_base::Text;
use rsml_names::number_of;
use rsml_syntax::{Amount, Body, Decl, Index, Mention};
use source_notes::{Notes, Piece, spot_of};
use source_survey::{Around, Declared, InPath, Sized, Sort};
use std::str;

/// S4.
pub fn turned_range(notes: &mut Notes<'_>, subject: &Subject<'_, '_>) {
    if let Some(Decl::Range { name, low, high }) = subject.declaration() {
        notes.fault_four(
            rest_behind(notes.text(), name, b""),
            "the range {} has no number: its low end {} is above its high end {}",
            Piece::Name(name),
            Piece::Number(number_of(low)),
            Piece::Number(number_of(high)),
            Piece::Nothing,
        );
    }
}

/// Tells what a size is, where a constant tells it.
fn tell_amount(notes: &mut Notes<'_>, subject: &Subject<'_, '_>, amount: &Amount) {
    let name = match amount {
        Amount::Number(_) => return,
        Amount::Name(name) => name,
    };
    if let Some(known) = subject.globals.meaning(name) {
        if let Some(number) = known.constant() {
            notes.say_four(
                "the constant {}, declared at {}, is {}",
                Piece::Name(name),
                Piece::Place(known_name(known).at()),
                Piece::Number(number),
                Piece::Nothing,
            );
        }
    }
}

/// A size or a bound that is none.
fn tell_bound(notes: &mut Notes<'_>, declared: &Declared<'_>, number: i64) {
    let (before, form): (&[u8], &str) = if declared.sort == Sort::Variable {
        (
            b"of",
            "the bound of the variable {} is {}; it must be 1 to 64",
        )
    } else {
        (b"[", "the size of {} is {}; it must be 1 to 64")
    };
    notes.fault(
        token_behind(notes.text(), declared.name, before),
        form,
        Piece::Name(declared.name),
        Piece::Number(number),
    );
}

/// S5.
pub fn wrong_size(notes: &mut Notes<'_>, subject: &Subject<'_, '_>) {
    if let Some(declared) = subject.declared() {
        if let Some(size) = declared.size {
            tell_bound(notes, &declared, subject.number(size));
            tell_amount(notes, subject, size);
        }
    }
}

/// A name with an index, the declaration that it names, and what is around it.
#[derive(Clone, Copy)]
struct Indexed<'a> {
    mention: &'a Mention,
    declared: &'a Text,
    size: Option<&'a Amount>,
    around: Around<'a>,
}

/// The shown step of a path.
fn step_in<'a>(
    subject: &Subject<'a, '_>,
    body: &'a Body,
    path: &InPath<'a>,
) -> Option<Indexed<'a>> {
    let (_, steps) = path.steps.split_first()?;
    let mut body = body;
    for mention in steps {
        let child = child_named(body, &mention.name)?;
        if subject.is_shown(&mention.name) {
            return Some(Indexed {
                mention,
                declared: &child.name,
                size: child.size.as_ref(),
                around: path.around,
            });
        }
        body = &child.body;
    }
    None
}

/// The shown step among those of all paths.
fn step_of<'a>(subject: &Subject<'a, '_>) -> Option<Indexed<'a>> {
    for path in subject.survey.paths.as_slice() {
        if let Some(step) = step_in(subject, &subject.spec.body, path) {
            return Some(step);
        }
    }
    None
}

/// The shown name with its index.
fn indexed_name<'a>(subject: &Subject<'a, '_>) -> Option<Indexed<'a>> {
    let used = match subject.used() {
        Some(used) => used,
        None => return step_of(subject),
    };
    let known = subject.globals.meaning(subject.name)?;
    Some(Indexed {
        mention: used.mention?,
        declared: known_name(known),
        size: known.size(),
        around: used.around,
    })
}

/// How far an index goes.
#[derive(Clone, Copy)]
enum Reach<'a> {
    Number(i64),
    /// As far as the size of the array or the variable that it is written with.
    Sized(Piece<'a>, Sized<'a>),
    /// `this` is the index of nothing.
    Stray,
    Unknown(&'a Text),
}

fn reach_of<'a>(subject: &Subject<'a, '_>, index: &'a Index, around: &Around<'a>) -> Reach<'a> {
    let name = match index {
        Index::Number(number) => return Reach::Number(i64::from(*number)),
        Index::This => {
            return match around.array {
                Some(array) => Reach::Sized(Piece::Code(b"this"), array),
                None => Reach::Stray,
            };
        }
        Index::Name(name) => name,
    };
    match around.variable {
        Some(variable) if variable.name.bytes() == name.bytes() => {
            Reach::Sized(Piece::Name(name), variable)
        }
        _ => match subject.globals.constant(name) {
            Some(number) => Reach::Number(number),
            None => Reach::Unknown(name),
        },
    }
}

/// Tells an index whose range goes up to a number, and that of its name only up to another.
fn too_far<'a>(notes: &mut Notes<'_>, name: &'a Text, index: Piece<'a>, highest: i64, size: i64) {
    notes.fault_four(
        token_behind(notes.text(), name, b"["),
        "the index {} goes up to {}, but that of {} only to {}",
        index,
        Piece::Number(highest),
        Piece::Name(name),
        Piece::Number(size),
    );
}

fn out_of_range(notes: &mut Notes<'_>, name: &Text, index: i64, size: i64) {
    notes.fault_four(
        token_behind(notes.text(), name, b"["),
        "the index {} is out of range; that of {} goes from 1 to {}",
        Piece::Number(index),
        Piece::Name(name),
        Piece::Number(size),
        Piece::Nothing,
    );
}

/// What is wrong with an index of a name with a size.
fn wrong_index<'a>(notes: &mut Notes<'_>, subject: &Subject<'a, '_>, reach: Reach<'a>, size: i64) {
    let name = subject.name;
    let spot = token_behind(notes.text(), name, b"[");
    match reach {
        Reach::Number(number) => out_of_range(notes, name, number, size),
        Reach::Sized(index, sized) => {
            too_far(notes, name, index, subject.number(sized.size), size);
            notes.say_four(
                "{} gets its range from {}, at {}",
                index,
                Piece::Name(sized.name),
                Piece::Place(sized.name.at()),
                Piece::Nothing,
            );
        }
        Reach::Stray => {
            notes.fault(
                spot,
                "`this` is the index of nothing here",
                Piece::Nothing,
                Piece::Nothing,
            );
            notes.say(
                "`this` stands inside a state array, or a macro, function, receive or send with a size",
            );
        }
        Reach::Unknown(index) => notes.fault(
            spot,
            "the index {} is neither a constant nor the variable of a quantifier around",
            Piece::Name(index),
            Piece::Nothing,
        ),
    }
}

/// What may be the index of a name with this size at a place.
fn likely_index<'a>(subject: &Subject<'a, '_>, around: &Around<'a>, size: i64) -> &'a str {
    match (around.variable, around.array) {
        (Some(variable), _) if subject.number(variable.size) == size => {
            match str::from_utf8(variable.name.bytes()) {
                Ok(name) => name,
                Err(_) => "1",
            }
        }
        (_, Some(array)) if subject.number(array.size) == size => "this",
        _ => "1",
    }
}

/// Tells where a name is declared, with its size or without.
fn tell_size(notes: &mut Notes<'_>, declared: &Text, size: Option<i64>) {
    match size {
        Some(size) => notes.say_four(
            "{} is declared with the size {}, at {}",
            Piece::Name(declared),
            Piece::Number(size),
            Piece::Place(declared.at()),
            Piece::Nothing,
        ),
        None => notes.say_two(
            "{} is declared without a size, at {}",
            Piece::Name(declared),
            Piece::Place(declared.at()),
        ),
    }
}

/// Tells a name with this size that has no index.
fn no_index<'a>(
    notes: &mut Notes<'_>,
    subject: &Subject<'a, '_>,
    indexed: &Indexed<'a>,
    size: i64,
) {
    notes.fault(
        spot_of(subject.name),
        "{} needs an index, as in `[{}]`",
        Piece::Name(subject.name),
        Piece::Words(likely_index(subject, &indexed.around, size)),
    );
}

/// Tells a name without size that has an index.
fn stray_index(notes: &mut Notes<'_>, name: &Text) {
    notes.fault(
        token_behind(notes.text(), name, b"["),
        "{} takes no index",
        Piece::Name(name),
        Piece::Nothing,
    );
}

/// Whether a size has a number. Where it has none, that is told at its name.
fn has_number(subject: &Subject<'_, '_>, size: &Amount) -> bool {
    subject.globals.amount(size).is_some()
}

/// Whether the range of an index has a number.
fn has_range(subject: &Subject<'_, '_>, reach: Option<Reach<'_>>) -> bool {
    match reach {
        Some(Reach::Sized(_, sized)) => has_number(subject, sized.size),
        _ => true,
    }
}

/// Tells what is wrong with an index or without one.
fn tell_index<'a>(
    notes: &mut Notes<'_>,
    subject: &Subject<'a, '_>,
    indexed: &Indexed<'a>,
    reach: Option<Reach<'a>>,
    size: Option<i64>,
) {
    match (size, reach) {
        (Some(size), Some(reach)) => wrong_index(notes, subject, reach, size),
        (Some(size), None) => no_index(notes, subject, indexed, size),
        (None, _) => stray_index(notes, subject.name),
    }
    tell_size(notes, indexed.declared, size);
}

/// S6.
pub fn wrong_indices(notes: &mut Notes<'_>, subject: &Subject<'_, '_>) {
    let indexed = match indexed_name(subject) {
        Some(indexed) => indexed,
        None => return,
    };
    let reach = match &indexed.mention.index {
        Some(index) => Some(reach_of(subject, index, &indexed.around)),
        None => None,
    };
    let size = subject.globals.size(indexed.size);
    if indexed.size.is_some() == size.is_some() && has_range(subject, reach) {
        tell_index(notes, subject, &indexed, reach, size);
    }
}
