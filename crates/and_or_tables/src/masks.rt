ghost use Rattle.std.specs.Prelude.{◌≡◌, ◌+◌, ◌*◌, ◌^◌, ◌<◌, ◌≤◌, if◌then◌else◌, All, EachIndex, IfOk, count_by, length, map, slice_index};
ghost use Rattle.rsml_syntax.specs.rules.Tables.{column, table_truth};
ghost use Rattle.and_or_tables.specs.Asked.{asked};
ghost use Rattle.and_or_tables.specs.Cells.{care_word, cares, want_word, wants};
ghost use Rattle.and_or_tables.specs.Shape.{IsTable, cells_of, columns};

use crate::counts::{count_all_holds, count_holds};
use crate::ground::{GroundRow, GroundTable, cell_at, column_count};
use crate::lanes::any_holds;
use rsml_syntax::{Cell, NoMemory};
use std::alloc::Global;
use std::marker::Model;

/// A table whose columns are words. It is asked with its rows' truths as the bits of a word: bit k,
/// from 0, is the truth of row k + 1. Contracts see it as the cells of its rows.
#[derive(Debug)]
pub struct MaskTable {
    rows: usize,
    care: Vec<u64>,
    want: Vec<u64>,
}

impl Drop for MaskTable {
    fn drop(self) {
        let Self {
            rows: _,
            care: _,
            want: _,
        } = self;
    }
}

impl Model for MaskTable {
    ghost use Rattle.std.specs.Prelude.{List};
    ghost use Rattle.rsml_syntax.specs.declared.syntax.Cell.{Cell};

    ghost Value = { List (List Cell) };

    ghost use Rattle.and_or_tables.specs.Masks.{IsMasked, spelled_by};

    ghost view = { spelled_by };

    ghost invariant = { IsMasked };
}

impl MaskTable {
    /// The masks of a table.
    pub fn build(alloc: Global, table: &GroundTable) -> Result<MaskTable, NoMemory>
        requires { IsTable table.now }
        ensures { IfOk result (λ masks. masks ≡ cells_of table.now) }
    {
        let rows = table.rows.as_slice();
        let columns = column_count(table);
        let mut care = Vec::with_capacity(alloc, columns)?;
        let mut want = Vec::with_capacity(alloc, columns)?;
        for place in 0..columns {
            let words = column_words(rows, place);
            care.push(words.care)?;
            want.push(words.want)?;
        }
        Ok(MaskTable {
            rows: rows.len(),
            care,
            want,
        })
    }

    /// Whether some column is true. It takes no memory.
    pub fn any_column(&self, bits: u64) -> bool
        ensures { result ≡ table_truth (asked bits self.now) }
    {
        any_holds(self.care.as_slice(), self.want.as_slice(), bits)
    }

    /// Adds 1 to the count of each column that is true, and leaves the other counts. It takes no
    /// memory.
    pub fn count_columns(&self, bits: u64, counts: &mut [u64])
        requires counts { length counts.old ≡ columns self.now }
        requires room { All (λ count. count < u64.MAX) counts.old }
        ensures { EachIndex counts.new (λ place. slice_index counts.new place
            ≡ slice_index counts.old place
            + (if column (asked bits self.now) place then 1 else 0)) }
    {
        count_holds(self.care.as_slice(), self.want.as_slice(), bits, counts);
    }

    /// Adds to each column's count the number of words that it is true for. It takes no memory.
    pub fn count_all(&self, bits: &[u64], counts: &mut [u64])
        requires counts { length counts.old ≡ columns self.now }
        requires room { All (λ count. count + length bits.now ≤ u64.MAX) counts.old }
        ensures { EachIndex counts.new (λ place. slice_index counts.new place
            ≡ slice_index counts.old place
            + count_by (λ word. column (asked word self.now) place) bits.now) }
    {
        count_all_holds(self.care.as_slice(), self.want.as_slice(), bits, counts);
    }
}

/// The words of one column.
#[derive(Clone, Copy)]
struct ColumnWords {
    care: u64,
    want: u64,
}

fn column_words(rows: &[GroundRow], place: usize) -> ColumnWords
    requires few { length rows.now ≤ 64 }
    requires cells { All (λ row. place < length row.cells) rows.now }
    ensures care { result.care ≡ care_word (map (λ row. row.cells) rows.now) place }
    ensures want { result.want ≡ want_word (map (λ row. row.cells) rows.now) place }
{
    let mut care = 0;
    let mut want = 0;
    let mut k = rows.len();
    while k > 0 {
        k -= 1;
        let cell = cell_at(&rows[k], place);
        care = with_lowest(care, asks(cell));
        want = with_lowest(want, asks_truth(cell));
    }
    ColumnWords { care, want }
}

/// The bits of a word, each one place higher, above a new lowest one.
pub fn with_lowest(word: u64, bit: bool) -> u64
    requires { word < 2 ^ 63 }
    ensures { result ≡ (if bit then 1 else 0) + 2 * word }
{
    2 * word + u64::from(bit)
}

/// Whether a cell asks something of its row's phrase.
fn asks(cell: Cell) -> bool
    ensures { result ≡ cares cell }
{
    match cell {
        Cell::T | Cell::F => true,
        Cell::Dot => false,
    }
}

/// Whether a cell asks that its row's phrase is true.
fn asks_truth(cell: Cell) -> bool
    ensures { result ≡ wants cell }
{
    match cell {
        Cell::T => true,
        Cell::F | Cell::Dot => false,
    }
}
