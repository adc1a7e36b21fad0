//! The ground rows of tables.
#![tactic(auto, using(crate::proofs::CountRules::sums))]

ghost use Rattle.std.specs.Prelude.{◌≡◌};
ghost use Rattle.rsml_syntax.specs.limits.Limits as limits;
ghost use Rattle.rsml_syntax.specs.limits.Limits.{adds, shown};
ghost use Rattle.rsml_syntax.specs.grammar.Written as written;
ghost use Rattle.rsml_limits.specs.counts.Counting as spec;

use rsml_names::{Globals, Guarded, rows_of};
use rsml_syntax::{Decl, Guard, Phrase, Row};

/// The ground rows of a row.
fn ground_rows(globals: &Globals<'_>, row: &Row) -> u64
    ensures { result ≡ limits.ground_rows globals.now row.now }
{
    match &row.phrase {
        Phrase::Plain(_) => 1,
        Phrase::Any { bound, .. } | Phrase::Every { bound, .. } => globals.many(Some(bound)),
    }
}

/// The ground rows of a table.
fn table_rows(globals: &Globals<'_>, rows: &[Row]) -> u64
    ensures { result ≡ shown (adds (limits.ground_rows globals.now) rows.now) }
{
    let mut count = 0u64;
    for row in rows {
        count = count.saturating_add(ground_rows(globals, row));
    }
    count
}

/// The ground rows of a guard.
pub fn guard_rows(globals: &Globals<'_>, guard: &Guard) -> u64
    ensures { result ≡ shown (spec.guard_rows globals.now guard.now) }
{
    table_rows(globals, rows_of(guard))
}

/// The ground rows of guards.
fn all_guard_rows<G: Guarded>(globals: &Globals<'_>, guarded: &[G]) -> u64
    ensures { result ≡ shown (adds (λ x. spec.guard_rows globals.now (G.guard_of x)) guarded.now) }
{
    let mut count = 0u64;
    for each in guarded {
        count = count.saturating_add(guard_rows(globals, each.guard()));
    }
    count
}

/// The ground rows of one instance of what is declared.
pub fn instance_rows(globals: &Globals<'_>, decl: &Decl) -> u64
    ensures { result ≡ shown (adds (limits.ground_rows globals.now) (written.rows_in decl.now)) }
{
    match decl {
        Decl::Macro { rows, .. } => table_rows(globals, rows.as_slice()),
        Decl::Function { cases, .. } => all_guard_rows(globals, cases.as_slice()),
        Decl::Send { cases, .. } => all_guard_rows(globals, cases.as_slice()),
        _ => 0,
    }
}
