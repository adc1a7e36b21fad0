//! Diagrams of tables to which a row may have been added.
ghost use Rattle.std.specs.Prelude.{◌<◌, ℕ, IfOk, length};
ghost use Rattle.bdd_core.specs.Diagram.{IsRef};
ghost use Rattle.rsml_ground.specs.Rests.{GuardFits};
ghost use Rattle.guard_encode.specs.Encoding.{Keeps};

use and_or_tables::{GroundRow, GroundTable};
use bdd_core::Ref;
use guard_encode::Encoder;
use rsml_base::{List, NoMemory};
use rsml_ground::GroundGuard;
use rsml_syntax::Cell;
use std::alloc::Global;
use table_notes::{TruthTable, cell_at, width};

/// A row that is added to a table: its phrase, and its cell in the columns that hold. In the others it has dots.
#[derive(Clone, Copy)]
pub struct Added<'t> {
    pub phrase: u32,
    pub cell: Cell,
    pub table: TruthTable<'t>,
}

impl<'t> Added<'t> {
    /// The cell in a column.
    pub fn cell_in(self, column: usize) -> Cell {
        if self.table.holds(column) {
            self.cell
        } else {
            Cell::Dot
        }
    }
}

/// A guard with one cell.
fn asked(alloc: Global, phrase: u32, cell: Cell) -> Result<GroundGuard, NoMemory>
    ensures { IfOk result (λ g. (n : ℕ) → phrase < n → GuardFits n g) }
{
    let mut cells = List::new(alloc);
    cells.push(cell)?;
    let mut rows = List::new(alloc);
    rows.push(GroundRow { phrase, cells })?;
    Ok(GroundGuard::Table(GroundTable { rows }))
}

/// Where a phrase is as a cell asks. Everywhere, where there is no such phrase.
#[tactic(auto, using(crate::proofs::Keeping::no_calls, crate::proofs::Keeping::two_calls))]
fn cell(
    alloc: Global,
    encoder: &mut Encoder<'_, '_>,
    phrase: u32,
    cell: Cell,
) -> Result<Ref, NoMemory>
    ensures keeps { Keeps encoder.old encoder.new }
    ensures is_ref { IfOk result (IsRef encoder.new.diagram) }
{
    if phrase >= encoder.machine().macros().phrases() {
        return Ok(encoder.constant(true));
    }
    let guard = asked(alloc, phrase, cell)?;
    encoder.guard(&guard)
}

/// The same, and where something else is true.
#[tactic(auto, using(crate::proofs::Keeping::no_calls, crate::proofs::Keeping::two_calls))]
fn and_cell(
    alloc: Global,
    encoder: &mut Encoder<'_, '_>,
    told: Ref,
    phrase: u32,
    asked: Cell,
) -> Result<Ref, NoMemory>
    requires { IsRef encoder.old.diagram told }
    ensures keeps { Keeps encoder.old encoder.new }
    ensures is_ref { IfOk result (IsRef encoder.new.diagram) }
{
    let more = cell(alloc, encoder, phrase, asked)?;
    encoder.and(told, more)
}

/// Where a column of rows holds.
#[tactic(auto, using(crate::proofs::Keeping::no_calls, crate::proofs::Keeping::two_calls))]
fn column(
    alloc: Global,
    encoder: &mut Encoder<'_, '_>,
    rows: &[GroundRow],
    place: usize,
) -> Result<Ref, NoMemory>
    ensures keeps { Keeps encoder.old encoder.new }
    ensures is_ref { IfOk result (IsRef encoder.new.diagram) }
{
    let mut told = encoder.constant(true);
    for row in rows {
        told = and_cell(alloc, encoder, told, row.phrase, cell_at(row, place))?;
    }
    Ok(told)
}

/// Where a column of a table and the cell of an added row hold.
#[tactic(auto, using(crate::proofs::Keeping::no_calls, crate::proofs::Keeping::two_calls))]
pub fn whole_column(
    alloc: Global,
    encoder: &mut Encoder<'_, '_>,
    rows: &[GroundRow],
    added: Option<Added<'_>>,
    place: usize,
) -> Result<Ref, NoMemory>
    ensures keeps { Keeps encoder.old encoder.new }
    ensures is_ref { IfOk result (IsRef encoder.new.diagram) }
{
    let told = column(alloc, encoder, rows, place)?;
    match added {
        Some(added) => and_cell(alloc, encoder, told, added.phrase, added.cell_in(place)),
        None => Ok(told),
    }
}

/// Where some column of a table and the cell of an added row hold.
#[tactic(auto, using(crate::proofs::Keeping::no_calls, crate::proofs::Keeping::two_calls))]
pub fn columns(
    alloc: Global,
    encoder: &mut Encoder<'_, '_>,
    rows: &[GroundRow],
    added: Option<Added<'_>>,
) -> Result<Ref, NoMemory>
    ensures keeps { Keeps encoder.old encoder.new }
    ensures is_ref { IfOk result (IsRef encoder.new.diagram) }
{
    let mut told = encoder.constant(false);
    for place in 0..width(rows) {
        let one = whole_column(alloc, encoder, rows, added, place)?;
        told = encoder.or(told, one)?;
    }
    Ok(told)
}
