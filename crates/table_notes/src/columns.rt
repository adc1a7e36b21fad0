//! Single columns of tables.
ghost use Rattle.std.specs.Prelude.{◌≡◌, ◌<◌, IfOk, OnOk, length};
ghost use Rattle.rsml_ground.specs.Rests.{GuardFits};
ghost use Rattle.table_notes.specs.Columns.{AreParts};

use and_or_tables::{GroundRow, GroundTable};
use rsml_base::{List, NoMemory};
use rsml_ground::GroundGuard;
use rsml_syntax::Cell;
use std::alloc::Global;

/// The greatest number of rows of a table.
const MOST_ROWS: usize = 64;

/// A row with one cell.
fn single(alloc: Global, phrase: u32, cell: Cell) -> Result<GroundRow, NoMemory>
    ensures phrase { IfOk result (λ row. row.phrase ≡ phrase) }
    ensures cells { IfOk result (λ row. length row.cells ≡ 1) }
{
    let mut cells = List::new(alloc);
    cells.push(cell)?;
    Ok(GroundRow { phrase, cells })
}

/// Puts what a column asks of a row's phrase behind other such parts. A dot asks nothing.
#[tactic(auto, using(crate::proofs::PartLemmas::part_more))]
fn put_part(
    alloc: Global,
    parts: &mut List<GroundRow>,
    row: &GroundRow,
    column: usize,
    phrases: u32,
) -> Result<(), NoMemory>
    requires { AreParts phrases parts.old }
    ensures { OnOk result (AreParts phrases parts.new) }
{
    let cell = match row.cells.get(column) {
        Some(cell) => *cell,
        None => return Ok(()),
    };
    if cell == Cell::Dot || row.phrase >= phrases || parts.len() >= MOST_ROWS {
        return Ok(());
    }
    let part = single(alloc, row.phrase, cell)?;
    parts.push(part)
}

/// What a column asks of the rows' phrases.
#[tactic(auto, using(crate::proofs::PartLemmas::no_parts))]
fn parts_of(
    alloc: Global,
    rows: &[GroundRow],
    column: usize,
    phrases: u32,
) -> Result<List<GroundRow>, NoMemory>
    ensures { IfOk result (AreParts phrases) }
{
    let mut parts = List::new(alloc);
    for row in rows {
        put_part(alloc, &mut parts, row, column, phrases)?;
    }
    Ok(parts)
}

/// The column of a table, over so many phrases, as a guard.
#[tactic(auto, using(crate::proofs::PartLemmas::parts_fit))]
pub fn column_guard(
    alloc: Global,
    rows: &[GroundRow],
    column: usize,
    phrases: u32,
) -> Result<GroundGuard, NoMemory>
    ensures { IfOk result (GuardFits phrases) }
{
    let parts = parts_of(alloc, rows, column, phrases)?;
    if parts.is_empty() {
        Ok(GroundGuard::Always)
    } else {
        Ok(GroundGuard::Table(GroundTable { rows: parts }))
    }
}
