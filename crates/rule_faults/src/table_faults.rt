//! S8 and S16: tables of unequal or too many rows, and long sums.

use crate::spots::{row_start, spot_of_cells, spot_of_sum};
use crate::subject::Subject;
use rsml_base::Text;
use rsml_names::simple_of;
use rsml_syntax::{Row, Simple, Sum};
use source_notes::{Notes, Piece, spot_of};
use source_survey::Table;

/// The greatest number of rows of a table.
const MOST_ROWS: usize = 64;

/// The greatest number of cells of a row.
const MOST_CELLS: usize = 32;

/// The greatest number of terms of a sum.
const MOST_TERMS: usize = 8;

/// The width of the first row.
fn width_of(rows: &[Row]) -> usize {
    match rows.first() {
        Some(row) => row.cells.len(),
        None => 0,
    }
}

/// The first row of a wrong width, and its place.
fn wrong_width(rows: &[Row]) -> Option<(usize, &Row)> {
    let width = width_of(rows);
    for (place, row) in rows.iter().enumerate() {
        let cells = row.cells.len();
        if cells == 0 || MOST_CELLS < cells || cells != width {
            return Some((place, row));
        }
    }
    None
}

fn has_wrong_height(rows: &[Row]) -> bool {
    rows.is_empty() || MOST_ROWS < rows.len()
}

/// Tells where the first row stands.
fn tell_first(notes: &mut Notes<'_>, rows: &[Row]) {
    if let Some(row) = rows.first() {
        if let Some(at) = row_start(notes.text(), row) {
            if let Ok(at) = u32::try_from(at) {
                notes.say_one("the first row stands at {}", Piece::Place(at));
            }
        }
    }
}

/// Tells a row with a wrong number of cells, as many as the first or others.
fn tell_width(notes: &mut Notes<'_>, table: &Table<'_>, place: usize, row: &Row) {
    let cells = row.cells.len();
    let first = width_of(table.rows);
    let form = if cells == first {
        "row {} has {}{}; a row has 1 to 32"
    } else {
        "row {} has {}{}; the first row has {}"
    };
    notes.fault_four(
        spot_of_cells(notes.text(), table.owner, row),
        form,
        Piece::Count(place.saturating_add(1)),
        Piece::Count(cells),
        Piece::Words(if cells == 1 { " cell" } else { " cells" }),
        Piece::Count(first),
    );
    if cells != first {
        tell_first(notes, table.rows);
    }
}

fn tell_height(notes: &mut Notes<'_>, owner: &Text, rows: usize) {
    notes.fault(
        spot_of(owner),
        "a table of {} has {} rows; a table has 1 to 64",
        Piece::Name(owner),
        Piece::Count(rows),
    );
}

/// Tells what is wrong with a table; whether something is.
fn tell_table(notes: &mut Notes<'_>, table: &Table<'_>) -> bool {
    if has_wrong_height(table.rows) {
        tell_height(notes, table.owner, table.rows.len());
        return true;
    }
    match wrong_width(table.rows) {
        Some((place, row)) => {
            tell_width(notes, table, place, row);
            true
        }
        None => false,
    }
}

/// S8.
pub fn wrong_table(notes: &mut Notes<'_>, subject: &Subject<'_, '_>) {
    for table in subject.survey.tables.as_slice() {
        if subject.is_shown(table.owner) && tell_table(notes, table) {
            return;
        }
    }
}

fn is_long(sum: &Sum) -> bool {
    MOST_TERMS < sum.terms.len()
}

/// The sum in a phrase that is too long.
fn long_in(simple: &Simple) -> Option<&Sum> {
    match simple {
        Simple::Compare { left, .. } if is_long(left) => Some(left),
        Simple::Compare { right, .. } if is_long(right) => Some(right),
        Simple::Function { right, .. } if is_long(right) => Some(right),
        _ => None,
    }
}

/// The first sum in rows that is too long.
fn long_among(rows: &[Row]) -> Option<&Sum> {
    for row in rows {
        if let Some(sum) = long_in(simple_of(&row.phrase)) {
            return Some(sum);
        }
    }
    None
}

/// The first sum of the owner that is too long.
fn long_sum<'a>(subject: &Subject<'a, '_>) -> Option<&'a Sum> {
    for table in subject.survey.tables.as_slice() {
        if subject.is_shown(table.owner) {
            if let Some(sum) = long_among(table.rows) {
                return Some(sum);
            }
        }
    }
    for owned in subject.survey.sums.as_slice() {
        if subject.is_shown(owned.owner) && is_long(owned.sum) {
            return Some(owned.sum);
        }
    }
    None
}

/// S16.
pub fn long_sums(notes: &mut Notes<'_>, subject: &Subject<'_, '_>) {
    if let Some(sum) = long_sum(subject) {
        notes.fault(
            spot_of_sum(subject.name, sum),
            "a sum of {} has {} terms; it may have 8",
            Piece::Name(subject.name),
            Piece::Count(sum.terms.len()),
        );
    }
}
