use and_or_tables::{GroundRow, Truths};
use rsml_ground::GroundGuard;
use rsml_syntax::Cell;

/// The rows of a table, where phrases have these truths.
#[derive(Clone, Copy)]
pub struct TruthTable<'t> {
    pub rows: &'t [GroundRow],
    pub truths: &'t Truths,
}

/// The rows of a guard: none, where it is always true.
pub fn rows_of(guard: &GroundGuard) -> &[GroundRow] {
    match guard {
        GroundGuard::Always => &[],
        GroundGuard::Table(table) => table.rows.as_slice(),
    }
}

/// How many columns rows have.
pub fn width(rows: &[GroundRow]) -> usize {
    match rows.first() {
        Some(row) => row.cells.len(),
        None => 0,
    }
}

/// The cell of a row in a column.
pub fn cell_at(row: &GroundRow, column: usize) -> Cell {
    match row.cells.get(column) {
        Some(cell) => *cell,
        None => Cell::Dot,
    }
}

/// The truth of a phrase. False where there is none.
pub fn is_true(truths: &Truths, phrase: u32) -> bool {
    phrase < truths.len() && truths.get(phrase)
}

/// Whether a cell fails where its phrase has this truth.
pub fn fails(cell: Cell, truth: bool) -> bool {
    match cell {
        Cell::T => !truth,
        Cell::F => truth,
        Cell::Dot => false,
    }
}

impl<'t> TruthTable<'t> {
    /// How many columns there are.
    pub fn width(self) -> usize {
        width(self.rows)
    }

    /// How many cells of a column fail.
    fn failures(self, column: usize) -> usize {
        let mut count: usize = 0;
        for row in self.rows {
            if fails(cell_at(row, column), is_true(self.truths, row.phrase)) {
                count = count.saturating_add(1);
            }
        }
        count
    }

    /// Whether a column holds.
    pub fn holds(self, column: usize) -> bool {
        self.failures(column) == 0
    }

    /// How many columns hold.
    pub fn holding(self) -> usize {
        let mut count: usize = 0;
        for column in 0..self.width() {
            if self.holds(column) {
                count = count.saturating_add(1);
            }
        }
        count
    }

    /// How many cells fail in the column that has the fewest. None does exactly where the guard with these rows is true.
    pub fn fewest_failures(self) -> usize {
        let mut fewest = self.rows.len();
        for column in 0..self.width() {
            fewest = fewest.min(self.failures(column));
        }
        fewest
    }
}
