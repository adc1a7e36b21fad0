ghost use Rattle.std.specs.Prelude.{◌≡◌, ◌<◌, All, length, map, slice_index_or};
ghost use Rattle.rsml_syntax.specs.rules.Tables.{allows, column};
ghost use Rattle.and_or_tables.specs.Ground.{ground_row, ground_table, known};
ghost use Rattle.and_or_tables.specs.Shape.{IsTable, PhrasesBelow, cells_of, columns};

use crate::truths::Truths;
use rsml_syntax::{Cell, List};

/// A row of a ground table: the number of its phrase, and one cell for each column.
#[derive(Debug, Drop)]
pub struct GroundRow {
    pub phrase: u32,
    pub cells: List<Cell>,
}

/// An AND/OR table over numbered phrases.
#[derive(Debug, Drop)]
pub struct GroundTable {
    pub rows: List<GroundRow>,
}

impl GroundTable {
    /// Whether some column is true. It takes no memory.
    pub fn truth(&self, truths: &Truths) -> bool
        requires table { IsTable self.now }
        requires phrases { PhrasesBelow (length truths.now) self.now }
        ensures { result ≡ ground_table truths.now self.now }
    {
        let rows = self.rows.as_slice();
        for place in 0..column_count(self) {
            if column_is_true(rows, truths, place) {
                return true;
            }
        }
        false
    }
}

/// How many columns the table has.
pub fn column_count(table: &GroundTable) -> usize
    requires { IsTable table.now }
    ensures { result ≡ columns (cells_of table.now) }
{
    let rows = table.rows.as_slice();
    rows[0].cells.len()
}

/// Whether each row of the column is as its cell wants it.
fn column_is_true(rows: &[GroundRow], truths: &Truths, place: usize) -> bool
    requires cells { All (λ row. place < length row.cells) rows.now }
    requires phrases { All (λ row. row.phrase < length truths.now) rows.now }
    ensures { result ≡ column (map (ground_row truths.now) rows.now) place }
{
    for row in rows {
        if !row_is_allowed(row, truths, place) {
            return false;
        }
    }
    true
}

fn row_is_allowed(row: &GroundRow, truths: &Truths, place: usize) -> bool
    requires cell { place < length row.now.cells }
    requires phrase { row.now.phrase < length truths.now }
    ensures { result
        ≡ allows (slice_index_or row.now.cells place Cell.Dot) (known truths.now row.now.phrase) }
{
    is_allowed(cell_at(row, place), truths.get(row.phrase))
}

/// The row's cell in a column.
pub fn cell_at(row: &GroundRow, place: usize) -> Cell
    requires { place < length row.now.cells }
    ensures { result ≡ slice_index_or row.now.cells place Cell.Dot }
{
    row.cells.as_slice()[place]
}

/// Whether a phrase of this truth is as the cell wants it.
fn is_allowed(cell: Cell, truth: bool) -> bool
    ensures { result ≡ allows cell truth }
{
    match cell {
        Cell::T => truth,
        Cell::F => !truth,
        Cell::Dot => true,
    }
}
