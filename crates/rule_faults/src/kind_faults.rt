//! S7: kinds of initial values and comparisons.

use crate::kinds::{Kind, KindFault, kind_fault, sum_kind};
use crate::lists::tell_list;
use crate::spots::{mention_in, rest_behind, spot_of_row, spot_of_sum};
use crate::subject::{Subject, tell_known};
use rsml_base::Text;
use rsml_names::{Globals, Known, number_of, simple_of, values_of};
use rsml_syntax::{Decl, Initial, Row, Simple, Sum};
use source_notes::{Notes, Piece, Spot};

/// What is wrong with a sum without kind.
const MIXED: &str =
    "a value of an enumeration stands alone, without a minus, and in no sum with others";

/// A kind in words.
pub fn kind_words(kind: Kind<'_>) -> Piece<'static> {
    Piece::Words(match kind {
        Kind::Numbers => "a number",
        Kind::Values(_) => "a value of the enumeration ",
        Kind::Mixed => "a sum without kind",
        Kind::Unknown => "without kind",
    })
}

/// The name of the enumeration behind these words.
pub fn kind_name<'a>(kind: Kind<'a>) -> Piece<'a> {
    match kind {
        Kind::Values(name) => Piece::Name(name),
        _ => Piece::Nothing,
    }
}

/// A fault that tells what is wrong with a comparison.
fn tell_kinds(notes: &mut Notes<'_>, spot: Spot, fault: KindFault<'_>) {
    match fault {
        KindFault::Mixed => notes.fault(spot, MIXED, Piece::Nothing, Piece::Nothing),
        KindFault::Unlike { left, right } => notes.fault_four(
            spot,
            "unlike kinds: on the left {}{}, on the right {}{}",
            kind_words(left),
            kind_name(left),
            kind_words(right),
            kind_name(right),
        ),
        KindFault::Ordered(name) => notes.fault(
            spot,
            "values of the enumeration {} are compared by `=` and `!=` alone",
            Piece::Name(name),
            Piece::Nothing,
        ),
    }
}

/// Tells what the names in a sum are.
pub fn tell_sum(notes: &mut Notes<'_>, subject: &Subject<'_, '_>, sum: &Sum) {
    for term in sum.terms.as_slice() {
        if let Some(mention) = mention_in(term) {
            subject.tell_meaning(notes, &mention.name);
        }
    }
}

/// Tells what the names in a comparison are.
fn tell_simple(notes: &mut Notes<'_>, subject: &Subject<'_, '_>, simple: &Simple) {
    match simple {
        Simple::Compare { left, right, .. } => {
            tell_sum(notes, subject, left);
            tell_sum(notes, subject, right);
        }
        Simple::Function {
            function,
            right,
            ..
        } => {
            subject.tell_meaning(notes, &function.name);
            tell_sum(notes, subject, right);
        }
        _ => {}
    }
}

/// The first row with unlike kinds.
fn unlike_among<'a>(globals: &Globals<'a>, rows: &'a [Row]) -> Option<(&'a Row, KindFault<'a>)> {
    for row in rows {
        if let Some(fault) = kind_fault(globals, simple_of(&row.phrase)) {
            return Some((row, fault));
        }
    }
    None
}

/// The first row of the owner's tables with unlike kinds.
fn unlike_row<'a>(subject: &Subject<'a, '_>) -> Option<(&'a Row, KindFault<'a>)> {
    for table in subject.survey.tables.as_slice() {
        if subject.is_shown(table.owner) {
            if let Some(found) = unlike_among(subject.globals, table.rows) {
                return Some(found);
            }
        }
    }
    None
}

/// The first sum of the owner without a kind.
fn mixed_sum<'a>(subject: &Subject<'a, '_>) -> Option<&'a Sum> {
    for owned in subject.survey.sums.as_slice() {
        if subject.is_shown(owned.owner) {
            if let Kind::Mixed = sum_kind(subject.globals, owned.sum) {
                return Some(owned.sum);
            }
        }
    }
    None
}

/// Whether a name is that of a type.
fn is_type(known: &Known<'_>) -> bool {
    match known.decl {
        Decl::Range { .. } => true,
        Decl::Enumeration { .. } => known.value.is_none(),
        _ => false,
    }
}

/// Whether a value is a number, a constant or a value of an enumeration.
fn is_value(globals: &Globals<'_>, initial: &Initial) -> bool {
    match initial {
        Initial::Number(_) => true,
        Initial::Name(name) => match globals.meaning(name) {
            Some(known) => known.value.is_some() || known.constant().is_some(),
            None => false,
        },
    }
}

/// Tells the values of a type.
fn tell_type(notes: &mut Notes<'_>, known: &Known<'_>) {
    match known.decl {
        Decl::Range { name, low, high } => notes.say_four(
            "the range {}, declared at {}, goes from {} to {}",
            Piece::Name(name),
            Piece::Place(name.at()),
            Piece::Number(number_of(low)),
            Piece::Number(number_of(high)),
        ),
        _ => {
            tell_known(notes, known);
            tell_list(notes, "  its values are ", values_of(known.decl));
        }
    }
}

/// An initial value.
fn value_piece<'a>(initial: &'a Initial) -> Piece<'a> {
    match initial {
        Initial::Number(number) => Piece::Number(number_of(number)),
        Initial::Name(name) => Piece::Name(name),
    }
}

/// An initial value that is not of the type of its input.
fn tell_initial<'a>(
    notes: &mut Notes<'_>,
    subject: &Subject<'a, '_>,
    kind: &'a Text,
    initial: &'a Initial,
) {
    notes.fault_four(
        rest_behind(notes.text(), kind, b"="),
        "the initial value {} of {} is not of the type {}",
        value_piece(initial),
        Piece::Name(subject.name),
        Piece::Name(kind),
        Piece::Nothing,
    );
    if let Initial::Name(name) = initial {
        subject.tell_meaning(notes, name);
    }
}

/// The value of an input is not one of its type. Where the type or the value has no meaning, that is told at its name alone.
fn wrong_initial<'a>(
    notes: &mut Notes<'_>,
    subject: &Subject<'a, '_>,
    kind: &'a Text,
    initial: &'a Initial,
) {
    match subject.globals.meaning(kind) {
        Some(known) if is_type(known) && is_value(subject.globals, initial) => {
            tell_initial(notes, subject, kind, initial);
            tell_type(notes, known);
        }
        _ => {}
    }
}

/// The first row with unlike kinds, or else the first sum without a kind.
fn unlike_sums(notes: &mut Notes<'_>, subject: &Subject<'_, '_>) {
    if let Some((row, fault)) = unlike_row(subject) {
        let spot = spot_of_row(notes.text(), subject.name, row);
        tell_kinds(notes, spot, fault);
        tell_simple(notes, subject, simple_of(&row.phrase));
    } else if let Some(sum) = mixed_sum(subject) {
        tell_kinds(notes, spot_of_sum(subject.name, sum), KindFault::Mixed);
        tell_sum(notes, subject, sum);
    }
}

/// S7.
pub fn unlike_kinds(notes: &mut Notes<'_>, subject: &Subject<'_, '_>) {
    match subject.declaration() {
        Some(Decl::Input { kind, initial, .. }) => wrong_initial(notes, subject, kind, initial),
        _ => unlike_sums(notes, subject),
    }
}
