//! What is counted of declarations.
#![tactic(auto, using(crate::proofs::CountRules::sums))]

ghost use Rattle.std.specs.Prelude.{◌≡◌};
ghost use Rattle.rsml_syntax.specs.limits.Limits as limits;
ghost use Rattle.rsml_syntax.specs.limits.Limits.{adds, shown};
ghost use Rattle.rsml_syntax.specs.grammar.Parts.{Declared};
ghost use Rattle.rsml_limits.specs.counts.Counting as spec;
ghost use Rattle.rsml_limits.specs.counts.Counting.{cells_among};

use crate::counts::counted::Counted;
use crate::counts::counted_names::CountedNames;
use crate::counts::rows::instance_rows;
use rsml_names::{Globals, size_of};
use rsml_syntax::Decl;

/// The event instances of a declaration.
fn events(globals: &Globals<'_>, decl: &Decl) -> u64
    ensures { result ≡ limits.events_at globals.now (Declared 0 decl.now) }
{
    match decl {
        Decl::Event { size, .. } => globals.many(size.as_ref()),
        _ => 0,
    }
}

/// The cells of a declaration.
fn cells(names: &CountedNames<'_, '_>, decl: &Decl) -> u64
    ensures { result ≡
        shown (cells_among names.now.previous names.now.globals (Declared 0 decl.now)) }
{
    match decl {
        Decl::Input { name, size, .. } => {
            let each = if names.previous.has(name.bytes()) {
                2
            } else {
                1
            };
            names.globals.many(size.as_ref()).saturating_mul(each)
        }
        _ => 0,
    }
}

/// The macro and function instances of a declaration.
fn definitions(globals: &Globals<'_>, decl: &Decl) -> u64
    ensures { result ≡ limits.definitions_at globals.now (Declared 0 decl.now) }
{
    match decl {
        Decl::Macro { size, .. } | Decl::Function { size, .. } => globals.many(size.as_ref()),
        _ => 0,
    }
}

/// The ground rows of a declaration.
fn rows(globals: &Globals<'_>, decl: &Decl) -> u64
    ensures { result ≡ shown (limits.rows_at globals.now (Declared 0 decl.now)) }
{
    globals
        .many(size_of(decl))
        .saturating_mul(instance_rows(globals, decl))
}

/// What is counted of a declaration.
fn declaration(names: &CountedNames<'_, '_>, counted: Counted, decl: &Decl) -> u64
    ensures { result ≡ shown (spec.counted counted names.now (Declared 0 decl.now)) }
{
    match counted {
        Counted::States | Counted::Transitions => 0,
        Counted::Events => events(names.globals, decl),
        Counted::Cells => cells(names, decl),
        Counted::Definitions => definitions(names.globals, decl),
        Counted::Rows => rows(names.globals, decl),
    }
}

/// What is counted of declarations.
pub fn declarations(names: &CountedNames<'_, '_>, counted: Counted, decls: &[Decl]) -> u64
    ensures { result ≡ shown (adds (λ d. spec.counted counted names.now (Declared 0 d)) decls.now) }
{
    let mut count = 0u64;
    for decl in decls {
        count = count.saturating_add(declaration(names, counted, decl));
    }
    count
}
