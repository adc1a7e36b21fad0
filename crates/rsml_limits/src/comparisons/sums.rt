ghost use Rattle.std.specs.Prelude.{◌≡◌, IfOk, IfSome, if◌then◌else◌, pos, neg_ℤ, ◌<ℤ◌, ◌≤ℤ◌};
ghost use Rattle.std.specs.Option.{option_map};
ghost use Rattle.rsml_syntax.specs.limits.Comparisons as spec;
ghost use Rattle.rsml_syntax.specs.limits.Thresholds as thresholds;
ghost use Rattle.rsml_limits.specs.comparisons.Shown.{shown_cell, shown_sum};

use crate::comparisons::atom::Atom;
use crate::comparisons::ground_term::GroundTerm;
use crate::comparisons::indices::Indices;
use crate::comparisons::input_cell::InputCell;
use rsml_names::Globals;
use rsml_syntax::{NoMemory, Sum};
use std::alloc::Global;

/// The terms of a sum with what they are in a reading.
pub fn terms_of<'a>(
    alloc: Global,
    globals: &Globals<'_>,
    indices: &Indices<'_>,
    sum: &'a Sum,
) -> Result<Vec<GroundTerm<'a>>, NoMemory>
    ensures { IfOk result (λ terms. shown_sum terms.items
        ≡ spec.ground_sum globals.now indices.now sum.now) }
{
    let mut terms = Vec::new(alloc);
    for term in sum.terms.as_slice() {
        terms.push(GroundTerm::new(globals, indices, term)?)?;
    }
    Ok(terms)
}

/// The cell that a sum is, without a minus.
pub fn single_cell<'a>(terms: &[GroundTerm<'a>]) -> Option<InputCell<'a>>
    ensures { option_map shown_cell result ≡ thresholds.single_cell (shown_sum terms.now) }
{
    let (first, rest) = terms.split_first()?;
    if first.minus || !rest.is_empty() {
        return None;
    }
    first.atom.cell()
}

/// The number of a sum without cells.
pub fn constant_number(terms: &[GroundTerm<'_>]) -> Option<i128>
    ensures number { result ≡ thresholds.constant_number (shown_sum terms.now) }
    ensures room { IfSome result (λ number. number <ℤ i128.MAX) }
{
    let mut number = 0i128;
    for term in terms {
        let Atom::Number(more) = term.atom else {
            return None;
        };
        number += signed(term.minus, more);
    }
    Some(number)
}

// A number with the sign of its term.
fn signed(minus: bool, number: i64) -> i128
    ensures number { result ≡ (if minus then neg_ℤ number else number) }
    ensures low { neg_ℤ (pos 9223372036854775808) ≤ℤ result }
    ensures high { result ≤ℤ pos 9223372036854775808 }
{
    let number = i128::from(number);
    if minus { -number } else { number }
}
