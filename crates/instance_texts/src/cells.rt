//! The cells of all inputs, each with the declaration of its type.
ghost use Rattle.std.specs.Prelude.{◌≡◌, ℕ, ◌≤◌, true, false, ◌++◌, IfOk, OnOk, Some, map, filter, slice_get};
ghost use Rattle.std.specs.Option.{option_copied};
ghost use Rattle.rsml_syntax.specs.declared.syntax.Decl as syntax;
ghost use Rattle.rsml_syntax.specs.rules.Globals.{many, size_of};
ghost use Rattle.rsml_meaning.specs.Instances.{globals_of};
ghost use Rattle.rsml_meaning.specs.Cells as spec_cells;
ghost use Rattle.instance_texts.specs.InputCells.{without_first, declared_type, type_at, cell_at, is_named};

use crate::cell_ref::CellRef;
use crate::listed::Listed;
use crate::listings::listing;
use crate::sorts::Sort;
use rsml_names::{Globals, NameList, name_of, previous_names};
use rsml_syntax::{Decl, NoMemory, Spec};
use std::alloc::Global;

// The declaration of the type of an input.
fn kind_of<'a>(globals: &Globals<'a>, decl: &Decl) -> Option<&'a Decl>
    ensures { declared_type (option_copied result) ≡ type_at globals.now decl.now }
{
    match decl {
        Decl::Input { kind, .. } => match globals.meaning(kind) {
            Some(known) => Some(known.decl),
            None => None,
        },
        _ => None,
    }
}

// A cell of an input.
fn cell<'a>(globals: &Globals<'a>, input: &Listed<'a>, previous: bool) -> CellRef<'a>
    ensures { result ≡ cell_at globals.now previous input.now }
{
    CellRef {
        input: Listed {
            decl: input.decl,
            index: input.index,
        },
        previous,
        kind: kind_of(globals, input.decl),
    }
}

// The cells of inputs.
fn own_cells<'a>(
    alloc: Global,
    globals: &Globals<'a>,
    inputs: &[Listed<'a>],
) -> Result<Vec<CellRef<'a>>, NoMemory>
    ensures { IfOk result (λ v. v.items ≡ map (cell_at globals.now false) inputs.now) }
{
    let mut cells = Vec::new(alloc);
    for input in inputs {
        cells.push(cell(globals, input, false))?;
    }
    Ok(cells)
}

// Adds the previous cells of those inputs whose names are among these.
fn add_previous<'a>(
    cells: &mut Vec<CellRef<'a>>,
    globals: &Globals<'a>,
    names: &NameList<'_>,
    inputs: &[Listed<'a>],
) -> Result<(), NoMemory>
    ensures { OnOk result (cells.new.items
        ≡ cells.old.items ++ map (cell_at globals.now true) (filter (is_named names.now) inputs.now)) }
{
    for input in inputs {
        if names.has(name_of(input.decl).bytes()) {
            cells.push(cell(globals, input, true))?;
        }
    }
    Ok(())
}

/// The cells of a specification.
pub fn cells<'a>(
    alloc: Global,
    spec: &'a Spec,
    globals: &Globals<'a>,
) -> Result<Vec<CellRef<'a>>, NoMemory>
    requires globals { globals.now ≡ globals_of spec.now }
    requires few { (k : ℕ) (d : syntax.Decl) → slice_get spec.now.decls k ≡ Some d
        → many globals.now (size_of d) ≤ 64 }
    ensures { IfOk result (λ v. v.items ≡ map without_first (spec_cells.cells spec.now)) }
{
    let inputs = listing(alloc, globals, Sort::Input, spec.decls.as_slice())?;
    let names = previous_names(alloc, spec)?;
    let mut cells = own_cells(alloc, globals, &inputs)?;
    add_previous(&mut cells, globals, &names, &inputs)?;
    Ok(cells)
}
