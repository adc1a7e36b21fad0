ghost use Rattle.std.specs.Prelude.{◌≡◌, IfOk, map};
ghost use Rattle.rsml_syntax.specs.limits.Thresholds as spec;
ghost use Rattle.rsml_limits.specs.thresholds.Tabled.{input_ends};

use crate::comparisons::InputCell;
use pair_counts::Range;
use rsml_names::{Globals, Known, number_of};
use rsml_syntax::{Decl, NoMemory, Text};
use std::alloc::Global;

// Without a number.
const EMPTY: Range = Range { low: 0, high: 0 };

/// The inner numbers of cells: those above the lowest of a cell's input, and at most its highest.
pub fn ranges_of(
    alloc: Global,
    globals: &Globals<'_>,
    cells: &[InputCell<'_>],
) -> Result<Vec<Range>, NoMemory>
    ensures { IfOk result (λ ranges. map (λ r. (r.low, r.high)) ranges.items
        ≡ map (λ c. input_ends globals.now c.input.now) cells.now) }
{
    let mut ranges = Vec::new(alloc);
    for cell in cells {
        ranges.push(range_of_input(globals, cell.input))?;
    }
    Ok(ranges)
}

// From the lowest to the highest number of an input; empty where it is not declared.
fn range_of_input(globals: &Globals<'_>, input: &Text) -> Range
    ensures { (result.low, result.high) ≡ input_ends globals.now input.now }
{
    match globals.meaning(input) {
        Some(known) => range_of(globals, known),
        None => EMPTY,
    }
}

// Those of the type of an input.
fn range_of(globals: &Globals<'_>, known: &Known<'_>) -> Range
    ensures { (result.low, result.high) ≡ spec.ends globals.now known.now }
{
    match known.decl {
        Decl::Input { kind, .. } => match globals.meaning(kind) {
            Some(kind) => range_of_type(kind),
            None => EMPTY,
        },
        _ => EMPTY,
    }
}

// Those of a type.
fn range_of_type(known: &Known<'_>) -> Range
    ensures { (result.low, result.high) ≡ spec.type_ends known.now }
{
    match known.decl {
        Decl::Range { low, high, .. } => Range {
            low: i128::from(number_of(low)),
            high: i128::from(number_of(high)),
        },
        Decl::Enumeration { values, .. } => Range {
            low: 0,
            high: i128::from(values.len() as u64) - 1,
        },
        _ => EMPTY,
    }
}
