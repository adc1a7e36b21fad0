//! The columns in which a group fails, over the rows of its tables.
ghost use Rattle.std.specs.Prelude.{◌<◌, ℕ, IfOk};
ghost use Rattle.bdd_core.specs.Diagram.{IsRef};
ghost use Rattle.rsml_ground.specs.Rests.{GuardFits};
ghost use Rattle.guard_encode.specs.Encoding.{Keeps};

use crate::failing::{failing_worlds, other_worlds};
use crate::gaps::Gap;
use crate::rows::Row;
use and_or_tables::{GroundRow, GroundTable};
use bdd_core::Ref;
use guard_encode::Encoder;
use rsml_base::{List, NoMemory};
use rsml_ground::GroundGuard;
use rsml_syntax::Cell;
use std::alloc::Global;

/// How many columns are told at most.
const MOST_COLUMNS: usize = 32;

/// A guard with one cell.
fn single(alloc: Global, phrase: u32, cell: Cell) -> Result<GroundGuard, NoMemory>
    ensures { IfOk result (λ g. (n : ℕ) → phrase < n → GuardFits n g) }
{
    let mut cells = List::new(alloc);
    cells.push(cell)?;
    let mut rows = List::new(alloc);
    rows.push(GroundRow { phrase, cells })?;
    Ok(GroundGuard::Table(GroundTable { rows }))
}

/// Those of the worlds of `told` in which the phrase of a row is as its cell asks.
#[tactic(auto, using(crate::proofs::Keeping::no_calls, crate::proofs::Keeping::two_calls))]
fn and_cell(
    alloc: Global,
    encoder: &mut Encoder<'_, '_>,
    row: Row,
    told: Ref,
) -> Result<Ref, NoMemory>
    requires { IsRef encoder.old.diagram told }
    ensures keeps { Keeps encoder.old encoder.new }
    ensures is_ref { IfOk result (IsRef encoder.new.diagram) }
{
    if row.cell == Cell::Dot || row.phrase >= encoder.machine().macros().phrases() {
        return Ok(told);
    }
    let guard = single(alloc, row.phrase, row.cell)?;
    let there = encoder.guard(&guard)?;
    encoder.and(told, there)
}

/// Those of the worlds of `told` in which a column is true.
#[tactic(auto, using(crate::proofs::Keeping::no_calls, crate::proofs::Keeping::two_calls))]
pub fn and_column(
    alloc: Global,
    encoder: &mut Encoder<'_, '_>,
    column: &[Row],
    told: Ref,
) -> Result<Ref, NoMemory>
    requires { IsRef encoder.old.diagram told }
    ensures keeps { Keeps encoder.old encoder.new }
    ensures is_ref { IfOk result (IsRef encoder.new.diagram) }
{
    let mut there = told;
    for row in column {
        there = and_cell(alloc, encoder, *row, there)?;
    }
    encoder.decided(alloc, there)
}

/// A cell for each row, which are true together in some world of `told`, if there is one: F, as long as there is.
#[tactic(auto, using(crate::proofs::Keeping::no_calls, crate::proofs::Keeping::two_calls))]
fn first_column(
    alloc: Global,
    encoder: &mut Encoder<'_, '_>,
    rows: &[Row],
    told: Ref,
) -> Result<Vec<Row>, NoMemory>
    requires { IsRef encoder.old.diagram told }
    ensures keeps { Keeps encoder.old encoder.new }
{
    let mut column = Vec::new(alloc);
    let mut there = told;
    for row in rows {
        let tried = row.with(Cell::F);
        let with = and_column(alloc, encoder, &[tried], there)?;
        if encoder.is_false(with) {
            column.push(row.with(Cell::T))?;
        } else {
            column.push(tried)?;
            there = with;
        }
    }
    Ok(column)
}

/// Makes a dot of each cell without which the column is still true of no world of `others`.
#[tactic(auto, using(crate::proofs::Keeping::no_calls, crate::proofs::Keeping::two_calls))]
fn widen(
    alloc: Global,
    encoder: &mut Encoder<'_, '_>,
    column: &mut Vec<Row>,
    others: Ref,
) -> Result<(), NoMemory>
    requires { IsRef encoder.old.diagram others }
    ensures keeps { Keeps encoder.old encoder.new }
{
    for place in 0..column.len() {
        if place < column.len() {
            let row = column[place];
            column[place] = row.with(Cell::Dot);
            let there = and_column(alloc, encoder, column.as_slice(), others)?;
            if !encoder.is_false(there) {
                column[place] = row;
            }
        }
    }
    Ok(())
}

/// The worlds of `told` in which a column is not true.
#[tactic(auto, using(crate::proofs::Keeping::no_calls, crate::proofs::Keeping::two_calls))]
fn without(
    alloc: Global,
    encoder: &mut Encoder<'_, '_>,
    column: &[Row],
    told: Ref,
) -> Result<Ref, NoMemory>
    requires { IsRef encoder.old.diagram told }
    ensures keeps { Keeps encoder.old encoder.new }
    ensures is_ref { IfOk result (IsRef encoder.new.diagram) }
{
    let there = and_column(alloc, encoder, column, told)?;
    let others = encoder.not(there)?;
    let left = encoder.and(told, others)?;
    encoder.decided(alloc, left)
}

/// Columns, and whether there are more.
#[derive(Drop)]
pub struct Columns {
    pub list: Vec<Vec<Row>>,
    pub more: bool,
}

/// The columns in which a group fails: their rows are these.
pub fn columns_of(
    alloc: Global,
    encoder: &mut Encoder<'_, '_>,
    gap: Gap,
    rows: &[Row],
) -> Result<Columns, NoMemory> {
    let mut list = Vec::new(alloc);
    let mut rest = failing_worlds(alloc, encoder, gap.group, gap.failing)?;
    let others = other_worlds(encoder, gap.group, rest)?;
    for _column in 0..MOST_COLUMNS {
        if encoder.is_false(rest) {
            break;
        }
        let mut column = first_column(alloc, encoder, rows, rest)?;
        widen(alloc, encoder, &mut column, others)?;
        rest = without(alloc, encoder, column.as_slice(), rest)?;
        list.push(column)?;
    }
    let more = !encoder.is_false(rest);
    Ok(Columns { list, more })
}
