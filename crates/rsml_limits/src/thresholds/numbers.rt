ghost use Rattle.std.specs.Prelude.{◌≡◌, ◌++◌, IfOk, OnOk, map};
ghost use Rattle.rsml_limits.specs.comparisons.Shown.{shown_sum};
ghost use Rattle.rsml_limits.specs.thresholds.Edges as spec;
ghost use Rattle.rsml_limits.specs.thresholds.Shown.{shown_right};

use crate::comparisons::{GroundTerm, constant_number};
use crate::thresholds::edge::Edge;
use crate::thresholds::right::Right;
use rsml_syntax::NoMemory;
use std::alloc::Global;

/// An edge of each constant among sums.
pub fn edge_numbers(
    alloc: Global,
    edge: Edge,
    sums: &[Vec<GroundTerm<'_>>],
) -> Result<Vec<i128>, NoMemory>
    ensures { IfOk result (λ numbers. numbers.items
        ≡ spec.edge_numbers edge (map (λ terms. shown_sum terms.items) sums.now)) }
{
    let mut numbers = Vec::new(alloc);
    for terms in sums {
        put_edge(&mut numbers, edge, terms.as_slice())?;
    }
    Ok(numbers)
}

/// An edge of each constant right side, where a cell on the left asks for it.
pub fn asked_numbers(
    alloc: Global,
    edge: Edge,
    rights: &[Right<'_, '_>],
) -> Result<Vec<i128>, NoMemory>
    ensures { IfOk result (λ numbers. numbers.items
        ≡ spec.asked_numbers edge (map shown_right rights.now)) }
{
    let mut numbers = Vec::new(alloc);
    for right in rights {
        if edge.is_asked(right.relation) {
            put_edge(&mut numbers, edge, right.terms)?;
        }
    }
    Ok(numbers)
}

// The edge of a sum that is constant.
fn put_edge(numbers: &mut Vec<i128>, edge: Edge, terms: &[GroundTerm<'_>]) -> Result<(), NoMemory>
    ensures { OnOk result (numbers.new.items
        ≡ numbers.old.items ++ spec.edge_number edge (shown_sum terms.now)) }
{
    if let Some(number) = constant_number(terms) {
        numbers.push(edge.of(number))?;
    }
    Ok(())
}
