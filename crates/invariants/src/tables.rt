//! AND/OR tables whose phrases are told by handles.
ghost use Rattle.std.specs.Prelude.{◌≡◌, ℕ, Bool, ◌&&◌, All, IfOk, length, map, slice_index_or};
ghost use Rattle.rsml_syntax.specs.declared.syntax.Spec.{Spec};
ghost use Rattle.rsml_syntax.specs.declared.world.World.{World};
ghost use Rattle.rsml_syntax.specs.rules.Tables.{allows, column, table_truth, width};
ghost use Rattle.bdd_core.specs.Diagram.{IsRef};
ghost use Rattle.ground_claims.specs.Truths.{row_truth};
ghost use Rattle.guard_encode.specs.Encoding.{Keeps};
ghost use Rattle.invariants.specs.Told.{TellRows, TellsOf};

use bdd_core::Ref;
use ground_claims::ClaimRow;
use guard_encode::Encoder;
use rsml_base::NoMemory;
use rsml_syntax::Cell;

/// The row's cell in a column, a dot where there is none.
fn cell_at(row: &ClaimRow, place: usize) -> Cell
    ensures { result ≡ slice_index_or row.now.cells place Cell.Dot }
{
    row.cells.get(place).copied().unwrap_or(Cell::Dot)
}

/// How many columns rows have.
fn columns(rows: &[ClaimRow]) -> usize
    ensures { (active : ℕ → Bool) → result ≡ width (map (row_truth active) rows.now) }
{
    match rows.first() {
        Some(row) => row.cells.len(),
        None => 0,
    }
}

/// Where others are true, and a phrase is as the cell wants it.
fn with_row(
    encoder: &mut Encoder<'_, '_>,
    others: Ref,
    cell: Cell,
    phrase: Ref,
) -> Result<Ref, NoMemory>
    requires others { IsRef encoder.old.diagram others }
    requires phrase { IsRef encoder.old.diagram phrase }
    ensures keeps { Keeps encoder.old encoder.new }
    ensures is_ref { IfOk result (IsRef encoder.new.diagram) }
    ensures answer { IfOk result (λ r. (s : Spec) (one other : World → Bool) → TellsOf s encoder.old one others
        → TellsOf s encoder.old other phrase → TellsOf s encoder.new (λ w. one w && allows cell (other w)) r) }
{
    match cell {
        Cell::T => encoder.and(others, phrase),
        Cell::F => {
            let never = encoder.not(phrase)?;
            encoder.and(others, never)
        }
        Cell::Dot => Ok(others),
    }
}

/// Where each row's phrase is as the row's cell in a column wants it.
fn column_of(
    encoder: &mut Encoder<'_, '_>,
    rows: &[ClaimRow],
    phrases: &[Ref],
    place: usize,
) -> Result<Ref, NoMemory>
    requires many { length phrases.now ≡ length rows.now }
    requires phrases { All (IsRef encoder.old.diagram) phrases.now }
    ensures keeps { Keeps encoder.old encoder.new }
    ensures is_ref { IfOk result (IsRef encoder.new.diagram) }
    ensures answer { IfOk result (λ r. (s : Spec) (active : World → ℕ → Bool) → TellRows s encoder.old active rows.now phrases.now
        → TellsOf s encoder.new (λ w. column (map (row_truth (active w)) rows.now) place) r) }
{
    let mut all = encoder.constant(true);
    for at in 0..rows.len() {
        all = with_row(encoder, all, cell_at(&rows[at], place), phrases[at])?;
    }
    Ok(all)
}

/// Where some column of a table is true.
pub fn table_of(
    encoder: &mut Encoder<'_, '_>,
    rows: &[ClaimRow],
    phrases: &[Ref],
) -> Result<Ref, NoMemory>
    requires many { length phrases.now ≡ length rows.now }
    requires phrases { All (IsRef encoder.old.diagram) phrases.now }
    ensures keeps { Keeps encoder.old encoder.new }
    ensures answer { IfOk result (λ r. (s : Spec) (active : World → ℕ → Bool) → TellRows s encoder.old active rows.now phrases.now
        → TellsOf s encoder.new (λ w. table_truth (map (row_truth (active w)) rows.now)) r) }
{
    let mut some = encoder.constant(false);
    for place in 0..columns(rows) {
        let here = column_of(encoder, rows, phrases, place)?;
        some = encoder.or(some, here)?;
    }
    Ok(some)
}
