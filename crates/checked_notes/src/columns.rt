//! Single columns of tables.

use and_or_tables::GroundRow;
use rsml_syntax::Cell;
use table_notes::cell_at;

/// Whether the cells of two columns in a row ask opposite things.
fn are_opposite(one: Cell, other: Cell) -> bool {
    match one {
        Cell::T => other == Cell::F,
        Cell::F => other == Cell::T,
        Cell::Dot => false,
    }
}

/// Whether a row keeps two columns from being true together.
pub fn are_apart(rows: &[GroundRow], one: usize, other: usize) -> bool {
    for row in rows {
        if are_opposite(cell_at(row, one), cell_at(row, other)) {
            return true;
        }
    }
    false
}

/// How many columns there are; where there are no rows, one, which is always true.
pub fn width_of(rows: &[GroundRow]) -> usize {
    match rows.first() {
        Some(row) => row.cells.len(),
        None => 1,
    }
}
