//! Rows of the tables of a group, by where they are written.

use and_or_tables::GroundRow;
use ground_groups::Member;
use rsml_base::NoMemory;
use rsml_syntax::Cell;
use std::alloc::Global;
use table_notes::{member_at, member_count, rows_of};
use written_members::{Scene, guard_of, written_at};

/// A row of a column: an offset behind which its table is the first, its place in that, its phrase in a group, and its cell.
#[derive(Clone, Copy)]
pub struct Row {
    pub table: usize,
    pub place: usize,
    pub phrase: u32,
    pub cell: Cell,
}

impl Row {
    /// The same row with another cell.
    pub fn with(self, cell: Cell) -> Row {
        let mut row = self;
        row.cell = cell;
        row
    }
}

/// Whether one of these rows has a phrase.
fn has_phrase(rows: &[Row], phrase: u32) -> bool {
    for row in rows {
        if row.phrase == phrase {
            return true;
        }
    }
    false
}

/// Adds the rows of a table with other phrases.
fn add_rows(rows: &mut Vec<Row>, table: usize, more: &[GroundRow]) -> Result<(), NoMemory> {
    for (place, row) in more.iter().enumerate() {
        if !has_phrase(rows.as_slice(), row.phrase) {
            rows.push(Row {
                table,
                place,
                phrase: row.phrase,
                cell: Cell::Dot,
            })?;
        }
    }
    Ok(())
}

/// The first row of a group with each of the phrases of its tables.
pub fn rows_in(alloc: Global, scene: &Scene<'_, '_>, group: u32) -> Result<Vec<Row>, NoMemory> {
    let mut rows = Vec::new(alloc);
    for place in 0..member_count(scene.machine, group) {
        if let Some(member) = member_at(scene.machine, group, place)
            && let Some(at) = written_at(scene, member)
            && let Some(guard) = guard_of(scene.machine, member)
        {
            add_rows(&mut rows, at.table, rows_of(guard))?;
        }
    }
    Ok(rows)
}

/// The member of a group behind whose offset this table is the first.
pub fn member_with(scene: &Scene<'_, '_>, group: u32, table: usize) -> Option<Member> {
    for place in 0..member_count(scene.machine, group) {
        let member = member_at(scene.machine, group, place)?;
        if written_at(scene, member)?.table == table {
            return Some(member);
        }
    }
    None
}

/// A row as it is in a group that has a member with its table.
pub fn row_in(scene: &Scene<'_, '_>, group: u32, row: Row) -> Option<Row> {
    let member = member_with(scene, group, row.table)?;
    let written = rows_of(guard_of(scene.machine, member)?).get(row.place)?;
    let mut row = row;
    row.phrase = written.phrase;
    Some(row)
}
