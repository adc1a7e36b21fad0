//! A sum of rows, each times a whole number above 0, and whether it is a contradiction.
ghost use Rattle.std.specs.Prelude.{◌≡◌, ℕ, ℤ, ◌<◌, ◌+ℤ◌, ◌*ℤ◌, ◌≤ℤ◌, All, IfOk, IfSome, OnSome, IsTrue, length, map, pos};
ghost use Rattle.linear_conflicts.specs.Rows.{terms_at, Meets, AreMet, AreWithin, AreInConflict};
ghost use Rattle.linear_conflicts.specs.Steps.{combination, places};

use crate::multiplier::Multiplier;
use crate::range::Range;
use crate::row::Row;
use crate::term::Term;
use rsml_base::NoMemory;
use std::alloc::Global;

/// Whether the rows with these multipliers, in this scale, have a sum that no values within the
/// ranges meet.
pub fn is_contradiction(
    alloc: Global,
    rows: &[Row],
    ranges: &[Range],
    multipliers: &[Multiplier],
    scale: f64,
) -> Result<bool, NoMemory>
    ensures { IfOk result (λ yes. IsTrue yes → AreInConflict ranges.now rows.now (places multipliers.now)) }
{
    let mut factors = Vec::from_elem(alloc, 0, ranges.len())?;
    Ok(contradicts(factors.as_mut_slice(), rows, ranges, multipliers, scale))
}

// The same, with factors that are 0.
fn contradicts(
    factors: &mut [i64],
    rows: &[Row],
    ranges: &[Range],
    multipliers: &[Multiplier],
    scale: f64,
) -> bool
    requires { (v : ℕ → ℤ) → combination v factors.old 0 ≡ pos 0 }
    ensures { IsTrue result → AreInConflict ranges.now rows.now (places multipliers.now) }
{
    let Some(most) = combined(factors, rows, multipliers, scale) else {
        return false;
    };
    let Some(least) = least_of(factors, ranges) else {
        return false;
    };
    most < least
}

// Adds the rows to the factors, and gives the number that their sum is at most.
fn combined(
    factors: &mut [i64],
    rows: &[Row],
    multipliers: &[Multiplier],
    scale: f64,
) -> Option<i64>
    ensures places { OnSome result (All (λ place. place < length rows.now) (places multipliers.now)) }
    ensures most { IfSome result (λ most. (v : ℕ → ℤ) → AreMet v rows.now (places multipliers.now)
        → combination v factors.new 0 ≤ℤ (combination v factors.old 0 +ℤ most)) }
{
    let mut most: i64 = 0;
    for multiplier in multipliers {
        let row = rows.get(multiplier.place)?;
        let weight = multiplier.whole(scale);
        most = add_row(factors, most, row, weight)?;
    }
    Some(most)
}

// Adds a row to the factors, and what it is at most to `most`.
fn add_row(factors: &mut [i64], most: i64, row: &Row, weight: i64) -> Option<i64>
    ensures { IfSome result (λ more. (v : ℕ → ℤ) → Meets v row.now
        → (combination v factors.new 0 +ℤ most) ≤ℤ (combination v factors.old 0 +ℤ more)) }
{
    if weight <= 0 {
        return None;
    }
    add_terms(factors, row.terms.as_slice(), weight)?;
    let more = weight.checked_mul(row.most)?;
    most.checked_add(more)
}

// Adds terms to the factors.
fn add_terms(factors: &mut [i64], terms: &[Term], weight: i64) -> Option<()>
    ensures { OnSome result ((v : ℕ → ℤ) → combination v factors.new 0
        ≡ combination v factors.old 0 +ℤ weight *ℤ terms_at v terms.now) }
{
    for term in terms {
        add_term(factors, term, weight)?;
    }
    Some(())
}

// Adds a term to the factors.
fn add_term(factors: &mut [i64], term: &Term, weight: i64) -> Option<()>
    ensures { OnSome result ((v : ℕ → ℤ) → combination v factors.new 0
        ≡ combination v factors.old 0 +ℤ weight *ℤ (term.now.factor *ℤ v term.now.variable)) }
{
    let more = weight.checked_mul(term.factor)?;
    add(factors, term.variable as usize, more)
}

// Adds a number to the factor of a variable.
fn add(factors: &mut [i64], variable: usize, more: i64) -> Option<()>
    ensures { OnSome result ((v : ℕ → ℤ) → combination v factors.new 0
        ≡ combination v factors.old 0 +ℤ more *ℤ v variable) }
{
    let factor = factors.get(variable)?.checked_add(more)?;
    factors[variable] = factor;
    Some(())
}

// The least value of a combination within the ranges.
fn least_of(factors: &[i64], ranges: &[Range]) -> Option<i64>
    ensures { IfSome result (λ least. (v : ℕ → ℤ) → AreWithin ranges.now v
        → least ≤ℤ combination v factors.now 0) }
{
    let mut least: i64 = 0;
    for variable in 0..factors.len() {
        let product = least_product(&factors[variable], ranges.get(variable)?)?;
        least = least.checked_add(product)?;
    }
    Some(least)
}

// The least value of a factor times a variable with a range.
fn least_product(factor: &i64, range: &Range) -> Option<i64>
    ensures { IfSome result (λ least. (x : ℤ) → range.now.low ≤ℤ x → x ≤ℤ range.now.high
        → least ≤ℤ (factor.now *ℤ x)) }
{
    if *factor > 0 {
        factor.checked_mul(range.low)
    } else {
        factor.checked_mul(range.high)
    }
}
