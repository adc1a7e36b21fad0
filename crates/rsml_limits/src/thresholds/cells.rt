ghost use Rattle.std.specs.Prelude.{◌++◌, IfOk, OnOk, map};
ghost use Rattle.std.specs.Option.{option_to_list};
ghost use Rattle.rsml_syntax.specs.limits.Comparisons.{same_cell};
ghost use Rattle.rsml_syntax.specs.limits.Thresholds as thresholds;
ghost use Rattle.rsml_limits.specs.comparisons.Shown.{shown_cell, shown_sum};
ghost use Rattle.rsml_limits.specs.thresholds.Edges as spec;
ghost use Rattle.rsml_limits.specs.thresholds.Pairs.{SameMembers};
ghost use Rattle.rsml_limits.specs.thresholds.Shown.{shown_right};

use crate::comparisons::{GroundTerm, InputCell, single_cell};
use crate::thresholds::edge::{Edge, mirrored};
use crate::thresholds::right::Right;
use indexmap::IndexSet;
use rsml_syntax::NoMemory;
use std::alloc::Global;

/// The cells among sums.
pub fn cells_of<'a>(
    alloc: Global,
    sums: &[Vec<GroundTerm<'a>>],
) -> Result<IndexSet<InputCell<'a>>, NoMemory>
    ensures { IfOk result (λ cells. SameMembers same_cell (map shown_cell cells.keys)
        (spec.cells_of (map (λ terms. shown_sum terms.items) sums.now))) }
{
    let mut cells = IndexSet::new(alloc);
    for terms in sums {
        put_cell(&mut cells, terms.as_slice())?;
    }
    Ok(cells)
}

/// The right sides that are cells and ask for an edge of a constant on the left.
pub fn asking_cells<'a>(
    alloc: Global,
    edge: Edge,
    rights: &[Right<'_, 'a>],
) -> Result<IndexSet<InputCell<'a>>, NoMemory>
    ensures { IfOk result (λ cells. SameMembers same_cell (map shown_cell cells.keys)
        (spec.asking_cells edge (map shown_right rights.now))) }
{
    let mut cells = IndexSet::new(alloc);
    for right in rights {
        if edge.is_asked(mirrored(right.relation)) {
            put_cell(&mut cells, right.terms)?;
        }
    }
    Ok(cells)
}

// The cell that a sum is, once.
fn put_cell<'a>(
    cells: &mut IndexSet<InputCell<'a>>,
    terms: &[GroundTerm<'a>],
) -> Result<(), NoMemory>
    ensures { OnOk result (SameMembers same_cell (map shown_cell cells.new.keys)
        (map shown_cell cells.old.keys
        ++ option_to_list (thresholds.single_cell (shown_sum terms.now)))) }
{
    if let Some(cell) = single_cell(terms) {
        cells.insert(cell)?;
    }
    Ok(())
}
