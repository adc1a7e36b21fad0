ghost use Rattle.std.specs.Prelude.{◌≡◌, ◌↔◌, ◌<◌, ◌++◌, ◌∷◌, [], ℕ, All, Bool, IfOk, IfSome, List, OnOk, length, map, true};
ghost use Rattle.and_or_tables.specs.Shape.{IsTable, PhrasesBelow};
ghost use Rattle.macros.specs.Guards.{GuardBelow, HasShape};
ghost use Rattle.rsml_ground.specs.declared.definitions.GroundGuard.TheVariants as guards;
ghost use Rattle.macros.specs.Asked.{AskedBelow, AsksFor, ColumnBelow, HaveSameColumns, asked_truth, columns_truth, wants};
ghost use Rattle.macros.specs.Asked as spec;

use crate::FastGuard;
use and_or_tables::{GroundRow, GroundTable};
use rsml_ground::GroundGuard;
use rsml_syntax::{Cell, NoMemory};
use std::alloc::Global;

/// How many cells a table has at most that is asked column by column.
const MOST: usize = 64;

/// A phrase, and whether it is wanted to be true or false.
#[derive(Clone, Copy, PartialEq, Eq)]
pub struct Literal {
    pub phrase: u32,
    pub wanted: bool,
}

/// How a guard is asked: by the one phrase that decides it, or column by column, each up to the first phrase that is not as it
/// is wanted, or, where there are many cells, each phrase once.
pub enum Asked {
    Single(Literal),
    Columns(Vec<Vec<Literal>>),
    Masks(FastGuard),
}

impl Drop for Asked {
    fn drop(self) {
        match self {
            Self::Single(_) => {}
            Self::Columns(_) => {}
            Self::Masks(_) => {}
        }
    }
}

/// Puts what a cell wants of a phrase behind other literals; a dot wants nothing.
fn put(literals: &mut Vec<Literal>, phrase: u32, cell: Cell) -> Result<(), NoMemory>
    ensures { OnOk result (literals.new.items ≡ literals.old.items ++ wants phrase cell) }
{
    match cell {
        Cell::T => literals.push(Literal {
            phrase,
            wanted: true,
        })?,
        Cell::F => literals.push(Literal {
            phrase,
            wanted: false,
        })?,
        Cell::Dot => {}
    }
    Ok(())
}

/// The literals of the column at a place.
fn column(alloc: Global, rows: &[GroundRow], place: usize) -> Result<Vec<Literal>, NoMemory>
    requires { All (λ row. place < length row.cells) rows.now }
    ensures { IfOk result (λ column. column.items ≡ spec.column_of place rows.now) }
{
    let mut literals = Vec::new(alloc);
    for row in rows {
        put(&mut literals, row.phrase, row.cells.as_slice()[place])?;
    }
    Ok(literals)
}

/// The literals of each of so many columns.
fn columns_of(
    alloc: Global,
    rows: &[GroundRow],
    count: usize,
) -> Result<Vec<Vec<Literal>>, NoMemory>
    requires { All (λ row. length row.cells ≡ count) rows.now }
    ensures { IfOk result (λ columns. map (λ c. c.items) columns.items ≡ spec.columns_of count rows.now) }
{
    let mut columns = Vec::with_capacity(alloc, count)?;
    for place in 0..count {
        columns.push(column(alloc, rows, place)?)?;
    }
    Ok(columns)
}

/// The literal of a table with no other: its one column has it alone.
fn single(columns: &[Vec<Literal>]) -> Option<Literal>
    ensures { IfSome result (λ x. map (λ c. c.items) columns.now ≡ (x ∷ []) ∷ []) }
{
    if columns.len() != 1 {
        return None;
    }
    let column = columns[0].as_slice();
    if column.len() != 1 {
        return None;
    }
    Some(column[0])
}

/// How a table of these columns is asked.
fn of_columns(columns: Vec<Vec<Literal>>) -> Asked
    ensures right { (truths : List Bool) → asked_truth truths result
        ≡ columns_truth truths (map (λ c. c.items) columns.items) }
    ensures below { (count : ℕ) → All (λ c. ColumnBelow count c.items) columns.items → AskedBelow count result }
{
    match single(columns.as_slice()) {
        Some(literal) => Asked::Single(literal),
        None => Asked::Columns(columns),
    }
}

/// How a table is asked.
fn of_table(alloc: Global, table: &GroundTable) -> Result<Asked, NoMemory>
    requires { IsTable table.now }
    ensures { IfOk result (λ asked. (count : ℕ) → PhrasesBelow count table.now
        → AsksFor count (guards.Table table.now) asked) }
{
    let rows = table.rows.as_slice();
    let count = rows[0].cells.len();
    if rows.len() * count > MOST {
        return Ok(Asked::Masks(FastGuard::of_table(alloc, table)?));
    }
    Ok(of_columns(columns_of(alloc, rows, count)?))
}

/// How a guard that is always true is asked: by one column with no literals.
fn always(alloc: Global) -> Result<Asked, NoMemory>
    ensures { IfOk result (λ asked. (count : ℕ) → AsksFor count guards.Always asked) }
{
    let mut columns = Vec::with_capacity(alloc, 1)?;
    columns.push(Vec::new(alloc))?;
    Ok(Asked::Columns(columns))
}

impl Asked {
    /// How a guard is asked.
    pub fn new(alloc: Global, guard: &GroundGuard) -> Result<Asked, NoMemory>
        requires { HasShape guard.now }
        ensures { IfOk result (λ asked. (count : ℕ) → GuardBelow count guard.now → AsksFor count guard.now asked) }
    {
        match guard {
            GroundGuard::Always => always(alloc),
            GroundGuard::Table(table) => of_table(alloc, table),
        }
    }

    /// Whether both are asked column by column, and their columns are the same.
    pub fn has_columns_of(&self, other: &Asked) -> bool
        ensures same { (result ≡ true) ↔ HaveSameColumns self.now other.now }
        ensures alike { result ≡ true → (truths : List Bool) → asked_truth truths self.now ≡ asked_truth truths other.now }
    {
        match (self, other) {
            (Asked::Columns(columns), Asked::Columns(others)) => {
                columns.as_slice() == others.as_slice()
            }
            _ => false,
        }
    }
}
