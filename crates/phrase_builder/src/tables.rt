ghost use Rattle.std.specs.Prelude.{◌≡◌, IfOk, length};
ghost use Rattle.std.specs.List.{AllZip};
ghost use Rattle.rsml_meaning.specs.Words.{Each};
ghost use Rattle.rsml_meaning.specs.Cells.{cells};
ghost use Rattle.rsml_meaning.specs.Truth.{within};
ghost use Rattle.rsml_ground.specs.Rests.{Rest};
ghost use Rattle.rsml_ground.specs.StandsFor.{RowIs, TableIs, GuardIs, CaseIs};
ghost use Rattle.rsml_ground.specs.Scoped.{PhraseIsScoped, TableIsScoped, GuardIsScoped, CaseIsScoped};
ghost use Rattle.phrase_builder.specs.Grown.{Grew};

use crate::here::Here;
use crate::phrases::phrase_number;
use crate::site::Site;
use crate::sums::ground_sum;
use and_or_tables::{GroundRow, GroundTable};
use rsml_ground::{GroundCase, GroundGuard, Phrases};
use rsml_syntax::{Case, Cell, Guard, List, NoMemory, Row};
use std::alloc::Global;

// The same cells.
fn copied(alloc: Global, cells: &[Cell]) -> Result<List<Cell>, NoMemory>
    ensures { IfOk result (λ copy. copy ≡ cells.now) }
{
    let mut copy = List::with_capacity(alloc, cells.len())?;
    for cell in cells {
        copy.push(*cell)?;
    }
    Ok(copy)
}

// A row over the number of its phrase.
fn ground_row(
    alloc: Global,
    site: &Site<'_, '_, '_>,
    phrases: &mut Phrases,
    row: &Row,
) -> Result<GroundRow, NoMemory>
    requires rest { Rest (length (cells site.now.lookup.now)) site.now.definitions.now phrases.old }
    requires scoped { PhraseIsScoped site.now.lookup.now (length site.now.definitions.now) (within site.now.this) row.now.phrase }
    ensures grew { Grew (length (cells site.now.lookup.now)) site.now.definitions.now phrases.old phrases.new }
    ensures is { IfOk result (λ x. RowIs phrases.new site.now.lookup.now (within site.now.this) row.now x) }
{
    let phrase = phrase_number(alloc, site, phrases, &row.phrase)?;
    let cells = copied(alloc, row.cells.as_slice())?;
    Ok(GroundRow { phrase, cells })
}

// Rows over the numbers of their phrases.
fn ground_rows(
    alloc: Global,
    site: &Site<'_, '_, '_>,
    phrases: &mut Phrases,
    rows: &[Row],
) -> Result<List<GroundRow>, NoMemory>
    requires rest { Rest (length (cells site.now.lookup.now)) site.now.definitions.now phrases.old }
    requires scoped { Each (λ row. PhraseIsScoped site.now.lookup.now (length site.now.definitions.now) (within site.now.this) row.phrase) rows.now }
    ensures grew { Grew (length (cells site.now.lookup.now)) site.now.definitions.now phrases.old phrases.new }
    ensures are { IfOk result (λ xs. AllZip (RowIs phrases.new site.now.lookup.now (within site.now.this)) rows.now xs) }
{
    let mut found = List::new(alloc);
    for row in rows {
        let row = ground_row(alloc, site, phrases, row)?;
        found.push(row)?;
    }
    Ok(found)
}

/// A table over the numbers of its phrases.
pub fn ground_table(
    alloc: Global,
    site: &Site<'_, '_, '_>,
    phrases: &mut Phrases,
    rows: &[Row],
) -> Result<GroundTable, NoMemory>
    requires rest { Rest (length (cells site.now.lookup.now)) site.now.definitions.now phrases.old }
    requires scoped { TableIsScoped site.now.lookup.now (length site.now.definitions.now) (within site.now.this) rows.now }
    ensures grew { Grew (length (cells site.now.lookup.now)) site.now.definitions.now phrases.old phrases.new }
    ensures is { IfOk result (λ table. TableIs phrases.new site.now.lookup.now (within site.now.this) rows.now table) }
{
    let rows = ground_rows(alloc, site, phrases, rows)?;
    Ok(GroundTable { rows })
}

/// A guard over the numbers of its phrases.
pub fn ground_guard(
    alloc: Global,
    site: &Site<'_, '_, '_>,
    phrases: &mut Phrases,
    guard: &Guard,
) -> Result<GroundGuard, NoMemory>
    requires rest { Rest (length (cells site.now.lookup.now)) site.now.definitions.now phrases.old }
    requires scoped { GuardIsScoped site.now.lookup.now (length site.now.definitions.now) (within site.now.this) guard.now }
    ensures grew { Grew (length (cells site.now.lookup.now)) site.now.definitions.now phrases.old phrases.new }
    ensures is { IfOk result (λ x. GuardIs phrases.new site.now.lookup.now (within site.now.this) guard.now x) }
{
    match guard {
        Guard::Always => Ok(GroundGuard::Always),
        Guard::Table(rows) => {
            let table = ground_table(alloc, site, phrases, rows.as_slice())?;
            Ok(GroundGuard::Table(table))
        }
    }
}

// A case over the numbers of cells and phrases.
fn ground_case(
    alloc: Global,
    site: &Site<'_, '_, '_>,
    phrases: &mut Phrases,
    case: &Case,
) -> Result<GroundCase, NoMemory>
    requires rest { Rest (length (cells site.now.lookup.now)) site.now.definitions.now phrases.old }
    requires scoped { CaseIsScoped site.now.lookup.now (length site.now.definitions.now) (within site.now.this) case.now }
    ensures grew { Grew (length (cells site.now.lookup.now)) site.now.definitions.now phrases.old phrases.new }
    ensures is { IfOk result (λ x. CaseIs phrases.new site.now.lookup.now (within site.now.this) case.now x) }
{
    let value = ground_sum(alloc, site.lookup, &Here::within(site.this), &case.value)?;
    let guard = ground_guard(alloc, site, phrases, &case.guard)?;
    Ok(GroundCase { value, guard })
}

/// Cases over the numbers of cells and phrases.
pub fn ground_cases(
    alloc: Global,
    site: &Site<'_, '_, '_>,
    phrases: &mut Phrases,
    cases: &[Case],
) -> Result<List<GroundCase>, NoMemory>
    requires rest { Rest (length (cells site.now.lookup.now)) site.now.definitions.now phrases.old }
    requires scoped { Each (CaseIsScoped site.now.lookup.now (length site.now.definitions.now) (within site.now.this)) cases.now }
    ensures grew { Grew (length (cells site.now.lookup.now)) site.now.definitions.now phrases.old phrases.new }
    ensures are { IfOk result (λ xs. AllZip (CaseIs phrases.new site.now.lookup.now (within site.now.this)) cases.now xs) }
{
    let mut found = List::new(alloc);
    for case in cases {
        let case = ground_case(alloc, site, phrases, case)?;
        found.push(case)?;
    }
    Ok(found)
}
