//! S15: cases of functions and of sends, and what functions are compared with.

use crate::kind_faults::{kind_name, kind_words, tell_sum};
use crate::kinds::{Kind, are_alike, is_unknown, sum_kind};
use crate::lists::tell_list;
use crate::spots::spot_of_sum;
use crate::subject::Subject;
use rsml_base::Text;
use rsml_names::{Globals, simple_of};
use rsml_syntax::{Answer, Case, Decl, Operand, Row, SendCase, Simple, Sum};
use source_notes::{Notes, Piece, Spot, spot_of};

fn is_input(globals: &Globals<'_>, name: &Text) -> bool {
    match globals.meaning(name) {
        Some(known) => matches!(known.decl, Decl::Input { .. }),
        None => false,
    }
}

/// The name of an operand that is an input, or a previous one.
fn input_of<'a>(globals: &Globals<'_>, operand: &'a Operand) -> Option<&'a Text> {
    match operand {
        Operand::Previous(mention) => Some(&mention.name),
        Operand::Mention(mention) if is_input(globals, &mention.name) => Some(&mention.name),
        _ => None,
    }
}

/// The first input in a sum.
fn input_in<'a>(globals: &Globals<'_>, sum: &'a Sum) -> Option<&'a Text> {
    for term in sum.terms.as_slice() {
        if let Some(name) = input_of(globals, &term.operand) {
            return Some(name);
        }
    }
    None
}

/// The input in the sum of a phrase that compares the shown function with one.
fn input_in_simple<'a>(subject: &Subject<'a, '_>, simple: &'a Simple) -> Option<&'a Text> {
    match simple {
        Simple::Function {
            function,
            right,
            ..
        } if subject.is_shown(&function.name) => input_in(subject.globals, right),
        _ => None,
    }
}

fn input_among<'a>(subject: &Subject<'a, '_>, rows: &'a [Row]) -> Option<&'a Text> {
    for row in rows {
        if let Some(name) = input_in_simple(subject, simple_of(&row.phrase)) {
            return Some(name);
        }
    }
    None
}

/// The first input with which the shown function is compared.
fn compared_with<'a>(subject: &Subject<'a, '_>) -> Option<&'a Text> {
    for table in subject.survey.tables.as_slice() {
        if let Some(name) = input_among(subject, table.rows) {
            return Some(name);
        }
    }
    None
}

/// A function that is compared with an input.
fn not_constant(notes: &mut Notes<'_>, subject: &Subject<'_, '_>) {
    if let Some(input) = compared_with(subject) {
        notes.fault(
            spot_of(subject.name),
            "the function {} is compared with a sum that is not constant",
            Piece::Name(subject.name),
            Piece::Nothing,
        );
        subject.tell_meaning(notes, input);
    }
}

/// A case of another kind than the first one.
#[derive(Clone, Copy)]
struct Unlike<'a> {
    value: &'a Sum,
    kind: Kind<'a>,
    first: Kind<'a>,
}

fn are_unlike(first: Kind<'_>, kind: Kind<'_>) -> bool {
    !is_unknown(first) && !is_unknown(kind) && !are_alike(first, kind)
}

/// The first case of another kind than the first one.
fn unlike_case<'a>(globals: &Globals<'a>, cases: &'a [Case]) -> Option<Unlike<'a>> {
    let (case, rest) = cases.split_first()?;
    let first = sum_kind(globals, &case.value);
    for case in rest {
        let kind = sum_kind(globals, &case.value);
        if are_unlike(first, kind) {
            return Some(Unlike {
                value: &case.value,
                kind,
                first,
            });
        }
    }
    None
}

/// A first case of another kind than all others.
fn wrong_first<'a>(notes: &mut Notes<'_>, spot: Spot, function: &'a Text, unlike: &Unlike<'a>) {
    match unlike.first {
        Kind::Values(name) => notes.fault_four(
            spot,
            "the value of the first case of {} is a value of the enumeration {}; that of all others is {}{}",
            Piece::Name(function),
            Piece::Name(name),
            kind_words(unlike.kind),
            kind_name(unlike.kind),
        ),
        first => notes.fault_four(
            spot,
            "the value of the first case of {} is {}; that of all others is {}{}",
            Piece::Name(function),
            kind_words(first),
            kind_words(unlike.kind),
            kind_name(unlike.kind),
        ),
    }
}

/// A later case of another kind than the first one.
fn wrong_later<'a>(notes: &mut Notes<'_>, spot: Spot, function: &'a Text, unlike: &Unlike<'a>) {
    match unlike.kind {
        Kind::Values(name) => notes.fault_four(
            spot,
            "the value of this case is a value of the enumeration {}; that of the first case of {} is {}{}",
            Piece::Name(name),
            Piece::Name(function),
            kind_words(unlike.first),
            kind_name(unlike.first),
        ),
        kind => notes.fault_four(
            spot,
            "the value of this case is {}; that of the first case of {} is {}{}",
            kind_words(kind),
            Piece::Name(function),
            kind_words(unlike.first),
            kind_name(unlike.first),
        ),
    }
}

/// Tells cases of unlike kinds: the first one is shown where all others, two at least, are of one kind.
fn tell_unlike<'a>(
    notes: &mut Notes<'_>,
    subject: &Subject<'a, '_>,
    first: &'a Sum,
    others: &'a [Case],
    unlike: &Unlike<'a>,
) {
    let name = subject.name;
    if others.len() > 1 && unlike_case(subject.globals, others).is_none() {
        wrong_first(notes, spot_of_sum(name, first), name, unlike);
        tell_sum(notes, subject, first);
    } else {
        wrong_later(notes, spot_of_sum(name, unlike.value), name, unlike);
        tell_sum(notes, subject, unlike.value);
    }
}

/// A function without cases, or with unlike ones.
fn wrong_cases<'a>(notes: &mut Notes<'_>, subject: &Subject<'a, '_>, cases: &'a [Case]) {
    let unlike = unlike_case(subject.globals, cases);
    match (cases.split_first(), unlike) {
        (Some((first, others)), Some(unlike)) => {
            tell_unlike(notes, subject, &first.value, others, &unlike);
        }
        (None, _) => notes.fault(
            spot_of(subject.name),
            "the function {} has no case",
            Piece::Name(subject.name),
            Piece::Nothing,
        ),
        _ => {}
    }
}

/// The first case of a send that gives another number of values than there are fields, and this number.
fn wrong_answer(cases: &[SendCase], fields: usize) -> Option<(&SendCase, usize)> {
    for case in cases {
        if let Answer::Values(values) = &case.answer {
            if values.len() != fields {
                return Some((case, values.len()));
            }
        }
    }
    None
}

/// The sentence on so many values for another number of fields.
fn answer_form(values: usize, fields: usize) -> &'static str {
    match (values, fields) {
        (1, _) => "this case of {} gives {} value, but the send has {} fields",
        (_, 1) => "this case of {} gives {} values, but the send has {} field",
        _ => "this case of {} gives {} values, but the send has {} fields",
    }
}

/// A send with such a case.
fn wrong_answers(
    notes: &mut Notes<'_>,
    subject: &Subject<'_, '_>,
    fields: &[Text],
    cases: &[SendCase],
) {
    if let Some((case, count)) = wrong_answer(cases, fields.len()) {
        notes.fault_four(
            spot_of(&case.trigger.name),
            answer_form(count, fields.len()),
            Piece::Name(subject.name),
            Piece::Count(count),
            Piece::Count(fields.len()),
            Piece::Nothing,
        );
        tell_list(notes, "  its fields are ", fields);
    }
}

/// S15.
pub fn wrong_function(notes: &mut Notes<'_>, subject: &Subject<'_, '_>) {
    match subject.declaration() {
        Some(Decl::Function { cases, .. }) => wrong_cases(notes, subject, cases.as_slice()),
        Some(Decl::Send { fields, cases, .. }) => {
            wrong_answers(notes, subject, fields.as_slice(), cases.as_slice());
        }
        _ => not_constant(notes, subject),
    }
}
