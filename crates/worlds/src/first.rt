ghost use Rattle.std.specs.Prelude.{◌≡◌, IfOk, map, replicate};
ghost use Rattle.rsml_syntax.specs.limits.Checked.{IsChecked};
ghost use Rattle.rsml_meaning.specs.Runs.{first_world};

use crate::cell_ends::CellEnds;
use rsml_syntax::{List, NoMemory};
use state_tree::Tree;
use std::alloc::Global;

/// So many zeros.
fn zeros(alloc: Global, count: u32) -> Result<List<u8>, NoMemory>
    ensures { IfOk result (λ choices. choices ≡ replicate count 0) }
{
    let mut choices = List::new(alloc);
    for _component in 0..count {
        choices.push(0)?;
    }
    Ok(choices)
}

/// The default child of each component: what a move of it to the top state gives.
pub fn first_choices(alloc: Global, tree: &Tree<'_>) -> Result<List<u8>, NoMemory>
    requires { IsChecked tree.now }
    ensures { IfOk result (λ choices. choices ≡ (first_world tree.now).choices) }
{
    let mut choices = zeros(alloc, tree.components())?;
    for component in 0..tree.components() {
        tree.enter(&mut choices, component, 0);
    }
    Ok(choices)
}

/// The first number of each cell.
pub fn first_numbers(alloc: Global, ends: &[CellEnds<'_>]) -> Result<List<i64>, NoMemory>
    ensures { IfOk result (λ numbers. numbers ≡ map (λ cell. cell.initial) ends.now) }
{
    let mut numbers = List::new(alloc);
    for cell in ends {
        numbers.push(cell.initial)?;
    }
    Ok(numbers)
}
