ghost use Rattle.std.specs.Prelude.{◌≡◌, All, IfOk};
ghost use Rattle.std.specs.List.{AllZip};
ghost use Rattle.ground_claims.specs.StandsFor.{RowIs};
ghost use Rattle.ground_claims.specs.Scoped.{AskedStatesAreScoped};

use crate::claim::ClaimRow;
use crate::phrases::ground_phrase;
use phrase_builder::Lookup;
use rsml_syntax::{Cell, List, NoMemory, Row};
use std::alloc::Global;

/// The same cells.
fn copied(alloc: Global, cells: &[Cell]) -> Result<List<Cell>, NoMemory>
    ensures { IfOk result (λ copy. copy ≡ cells.now) }
{
    let mut copy = List::with_capacity(alloc, cells.len())?;
    for cell in cells {
        copy.push(*cell)?;
    }
    Ok(copy)
}

/// A row over numbers of states.
fn ground_row(alloc: Global, lookup: &Lookup<'_, '_>, row: &Row) -> Result<ClaimRow, NoMemory>
    requires { AskedStatesAreScoped lookup.now row.now.phrase }
    ensures { IfOk result (λ x. RowIs lookup.now row.now x) }
{
    let phrase = ground_phrase(alloc, lookup, &row.phrase)?;
    let cells = copied(alloc, row.cells.as_slice())?;
    Ok(ClaimRow { phrase, cells })
}

/// Rows over numbers of states.
pub fn ground_rows(
    alloc: Global,
    lookup: &Lookup<'_, '_>,
    rows: &[Row],
) -> Result<List<ClaimRow>, NoMemory>
    requires { All (λ row. AskedStatesAreScoped lookup.now row.phrase) rows.now }
    ensures { IfOk result (λ xs. AllZip (RowIs lookup.now) rows.now xs) }
{
    let mut found = List::new(alloc);
    for row in rows {
        let row = ground_row(alloc, lookup, row)?;
        found.push(row)?;
    }
    Ok(found)
}
