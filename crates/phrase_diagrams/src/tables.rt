//! AND/OR tables and guards.
ghost use Rattle.std.specs.Prelude.{◌≡◌, ◌&&◌, ◌<◌, length, map, slice_index_or, All, IfOk};
ghost use Rattle.bdd_core.specs.Diagram.{IsRef, meaning};
ghost use Rattle.bdd_core.specs.Calls.{Keeps, Represents};
ghost use Rattle.rsml_syntax.specs.rules.Tables.{allows, column};
ghost use Rattle.and_or_tables.specs.Ground.{ground_row, ground_table};
ghost use Rattle.and_or_tables.specs.Shape.{IsTable, cells_of, columns};
ghost use Rattle.rsml_ground.specs.Rests.{TableFits, GuardFits};
ghost use Rattle.rsml_ground.specs.Truths.{guard_truth};
ghost use Rattle.phrase_diagrams.specs.Diagrams.{truths_at};

use and_or_tables::{GroundRow, GroundTable};
use bdd_core::{Arena, Ref};
use rsml_base::NoMemory;
use rsml_ground::GroundGuard;
use rsml_syntax::Cell;

/// Where a guard is true. `diagrams` has the diagram of each phrase at the place of its number.
pub fn guard(arena: &mut Arena, diagrams: &[Ref], guard: &GroundGuard) -> Result<Ref, NoMemory>
    requires diagrams { All (IsRef arena.old) diagrams.now }
    requires guard { GuardFits (length diagrams.now) guard.now }
    ensures keeps { Keeps arena.old arena.new }
    ensures answer { IfOk result (Represents arena.new (λ values.
        guard_truth (truths_at arena.old diagrams.now values) guard.now)) }
{
    match guard {
        GroundGuard::Always => Ok(arena.constant(true)),
        GroundGuard::Table(rows) => table(arena, diagrams, rows),
    }
}

/// Where some column of a table is true. `diagrams` has the diagram of each phrase at the place of
/// its number.
pub fn table(arena: &mut Arena, diagrams: &[Ref], table: &GroundTable) -> Result<Ref, NoMemory>
    requires diagrams { All (IsRef arena.old) diagrams.now }
    requires table { TableFits (length diagrams.now) table.now }
    ensures keeps { Keeps arena.old arena.new }
    ensures answer { IfOk result (Represents arena.new (λ values.
        ground_table (truths_at arena.old diagrams.now values) table.now)) }
{
    let rows = table.rows.as_slice();
    let mut out = arena.constant(false);
    for place in 0..column_count(table) {
        let here = column_of(arena, diagrams, rows, place)?;
        out = arena.or(out, here)?;
    }
    Ok(out)
}

/// Where each row's phrase is as the row's cell in this column wants it. The last row comes first, as in the lists.
fn column_of(
    arena: &mut Arena,
    diagrams: &[Ref],
    rows: &[GroundRow],
    place: usize,
) -> Result<Ref, NoMemory>
    requires diagrams { All (IsRef arena.old) diagrams.now }
    requires cells { All (λ row. place < length row.cells) rows.now }
    requires phrases { All (λ row. row.phrase < length diagrams.now) rows.now }
    ensures keeps { Keeps arena.old arena.new }
    ensures answer { IfOk result (Represents arena.new (λ values.
        column (map (ground_row (truths_at arena.old diagrams.now values)) rows.now) place)) }
{
    let mut out = arena.constant(true);
    for at in (0..rows.len()).rev() {
        let row = &rows[at];
        out = with_row(
            arena,
            cell_at(row, place),
            diagrams[row.phrase as usize],
            out,
        )?;
    }
    Ok(out)
}

/// Where a phrase is as the cell wants it, and `others` is true.
fn with_row(arena: &mut Arena, cell: Cell, phrase: Ref, others: Ref) -> Result<Ref, NoMemory>
    requires phrase { IsRef arena.old phrase }
    requires others { IsRef arena.old others }
    ensures keeps { Keeps arena.old arena.new }
    ensures answer { IfOk result (Represents arena.new (λ values.
        allows cell (meaning arena.old phrase values) && meaning arena.old others values)) }
{
    match cell {
        Cell::T => arena.and(phrase, others),
        Cell::F => {
            let never = arena.constant(false);
            arena.ite(phrase, never, others)
        }
        Cell::Dot => Ok(others),
    }
}

/// How many columns the table has.
fn column_count(table: &GroundTable) -> usize
    requires { IsTable table.now }
    ensures { result ≡ columns (cells_of table.now) }
{
    let rows = table.rows.as_slice();
    rows[0].cells.len()
}

/// The row's cell in a column.
fn cell_at(row: &GroundRow, place: usize) -> Cell
    requires { place < length row.now.cells }
    ensures { result ≡ slice_index_or row.now.cells place Cell.Dot }
{
    row.cells.as_slice()[place]
}
