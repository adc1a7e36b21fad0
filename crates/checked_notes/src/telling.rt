//! How notes on guards are told.

use crate::items::Item;
use crate::verdicts::Verdict;
use source_notes::{Notes, Piece, Spot, spot_of};
use table_notes::cell_place;

/// Where a column is told: at its cell in the first row; for a function at the name.
fn column_spot(text: &[u8], item: Item<'_>, column: usize) -> Spot {
    let name = item.name();
    match item {
        Item::FunctionCase { .. } => spot_of(name),
        _ => Spot {
            at: cell_place(text, name.at() as usize, column),
            width: 1,
        },
    }
}

/// What is said of a column of a function's case.
fn case_column_form(verdict: Verdict) -> &'static str {
    match verdict {
        Verdict::Within(_) => {
            "column {} of case {} of the function {} holds only where column {} does"
        }
        _ => "column {} of case {} of the function {} holds in no world",
    }
}

/// What is said of a column of another table.
fn column_form(item: Item<'_>, verdict: Verdict) -> &'static str {
    match verdict {
        Verdict::Within(_) => "column {} of this table holds only where column {} does",
        _ => match item {
            Item::Transition { .. } => {
                "column {} of this table holds in no world in which the source is active"
            }
            _ => "column {} of this table holds in no world",
        },
    }
}

/// The number of something at a place, counted from 1.
fn number_of(place: usize) -> Piece<'static> {
    Piece::Count(place.saturating_add(1))
}

/// The number of the column where alone another is true.
fn other_column(verdict: Verdict) -> Piece<'static> {
    match verdict {
        Verdict::Within(other) => number_of(other),
        _ => Piece::Nothing,
    }
}

/// Tells what is found of a column.
fn tell_column(notes: &mut Notes<'_>, item: Item<'_>, column: usize, verdict: Verdict) {
    let spot = column_spot(notes.text(), item, column);
    let other = other_column(verdict);
    match item {
        Item::FunctionCase { function, place } => notes.note(
            spot,
            case_column_form(verdict),
            number_of(column),
            number_of(place),
            Piece::Name(function),
            other,
        ),
        _ => notes.note(
            spot,
            column_form(item, verdict),
            number_of(column),
            other,
            Piece::Nothing,
            Piece::Nothing,
        ),
    }
}

/// What is said of a guard that is true in no world, and what fills the gaps.
fn never_words(item: Item<'_>) -> (&'static str, Piece<'_>, Piece<'_>) {
    match item {
        Item::Macro { name } => (
            "the macro {} holds in no world",
            Piece::Name(name),
            Piece::Nothing,
        ),
        Item::FunctionCase { function, place } => (
            "case {} of the function {} is never enabled",
            number_of(place),
            Piece::Name(function),
        ),
        Item::SendCase { send, .. } => (
            "this case of the send {} is never enabled",
            Piece::Name(send),
            Piece::Nothing,
        ),
        Item::Transition { source, .. } => (
            "this transition from {} is never enabled",
            Piece::Name(source),
            Piece::Nothing,
        ),
    }
}

/// Tells that a guard is true in no world.
fn tell_never(notes: &mut Notes<'_>, item: Item<'_>) {
    let (form, one, two) = never_words(item);
    notes.note(
        spot_of(item.name()),
        form,
        one,
        two,
        Piece::Nothing,
        Piece::Nothing,
    );
}

/// Tells that nothing is told of a guard.
pub fn tell_untold(notes: &mut Notes<'_>, item: Item<'_>) {
    notes.note(
        spot_of(item.name()),
        "whether this guard and its columns ever hold is not told: it would take too long",
        Piece::Nothing,
        Piece::Nothing,
        Piece::Nothing,
        Piece::Nothing,
    );
}

/// Whether all columns of a table are true in no world.
fn are_never(verdicts: &[Verdict]) -> bool {
    for verdict in verdicts {
        if *verdict != Verdict::Never {
            return false;
        }
    }
    !verdicts.is_empty()
}

/// Tells what is found of a guard.
pub fn tell_item(notes: &mut Notes<'_>, item: Item<'_>, verdicts: &[Verdict]) {
    if are_never(verdicts) {
        tell_never(notes, item);
        return;
    }
    for (column, verdict) in verdicts.iter().enumerate() {
        if *verdict != Verdict::Useful {
            tell_column(notes, item, column, *verdict);
        }
    }
}
