ghost use Rattle.std.specs.Prelude.{◌≡◌, OnOk, Some, flat_map};
ghost use Rattle.rsml_syntax.specs.limits.Comparisons as spec;
ghost use Rattle.rsml_syntax.specs.rules.Globals as names;
ghost use Rattle.rsml_syntax.specs.grammar.Parts.{Declared};
ghost use Rattle.rsml_syntax.specs.grammar.Written as written;
ghost use Rattle.rsml_limits.specs.comparisons.Searched.{searched};

use crate::comparisons::phrases::{each_guard, rows};
use crate::comparisons::search::Search;
use rsml_names::size_of;
use rsml_syntax::{Amount, Decl, NoMemory};
use std::alloc::Global;

/// Goes through the comparisons of a declaration, once for each of its instances.
pub fn declaration<'a>(
    alloc: Global,
    search: &mut Search<'_, 'a>,
    decl: &'a Decl,
) -> Result<(), NoMemory>
    ensures { OnOk result (search.new
        ≡ searched search.old (λ g. spec.comparisons g (Declared 0 decl.now))) }
{
    match size_of(decl) {
        None => rows_in(alloc, search, decl, 0),
        Some(size) => each_instance(alloc, search, decl, size),
    }
}

// The rows of a declaration in each of so many instances.
fn each_instance<'a>(
    alloc: Global,
    search: &mut Search<'_, 'a>,
    decl: &'a Decl,
    size: &Amount,
) -> Result<(), NoMemory>
    ensures { OnOk result (search.new
        ≡ searched search.old (λ g. flat_map (spec.rows_comparisons g (written.rows_in decl.now))
        (names.indices g (Some size.now)))) }
{
    let count = search.globals().many(Some(size));
    for below in 0..count {
        rows_in(alloc, search, decl, below + 1)?;
    }
    Ok(())
}

// The rows of a declaration in the instance of this index.
fn rows_in<'a>(
    alloc: Global,
    search: &mut Search<'_, 'a>,
    decl: &'a Decl,
    this: u64,
) -> Result<(), NoMemory>
    ensures { OnOk result (search.new
        ≡ searched search.old (λ g. spec.rows_comparisons g (written.rows_in decl.now) this)) }
{
    match decl {
        Decl::Macro { rows: written, .. } => rows(alloc, search, written.as_slice(), this),
        Decl::Function { cases, .. } => each_guard(alloc, search, cases.as_slice(), this),
        Decl::Send { cases, .. } => each_guard(alloc, search, cases.as_slice(), this),
        _ => Ok(()),
    }
}
