ghost use Rattle.std.specs.Prelude.{◌≡◌, IfOk, IfSome, IsTrue};
ghost use Rattle.linear_conflicts.specs.Rows.{AreInConflict};
ghost use Rattle.linear_conflicts.specs.Steps.{places};

use crate::combination::is_contradiction;
use crate::multiplier::Multiplier;
use crate::opposites::opposites;
use crate::range::Range;
use crate::row::Row;
use crate::simplex::multipliers;
use rsml_base::NoMemory;
use std::alloc::Global;

// More rows than this are not looked at.
const MOST: usize = 4096;

/// The places of rows that no whole numbers within the ranges meet together, where such rows are
/// found. None says nothing.
pub fn conflict(
    alloc: Global,
    rows: &[Row],
    ranges: &[Range],
) -> Result<Option<Vec<usize>>, NoMemory>
    ensures { IfOk result (λ found. IfSome found (λ core. AreInConflict ranges.now rows.now core.items)) }
{
    if rows.len() > MOST {
        return Ok(None);
    }
    let found = confirmed(alloc, rows, ranges, opposites(alloc, rows)?)?;
    if found.is_some() {
        return Ok(found);
    }
    confirmed(alloc, rows, ranges, multipliers(alloc, rows, ranges)?)
}

// The places of the rows with these multipliers, where they are a contradiction in some scale.
fn confirmed(
    alloc: Global,
    rows: &[Row],
    ranges: &[Range],
    multipliers: Option<Vec<Multiplier>>,
) -> Result<Option<Vec<usize>>, NoMemory>
    ensures { IfOk result (λ found. IfSome found (λ core. AreInConflict ranges.now rows.now core.items)) }
{
    let Some(multipliers) = multipliers else {
        return Ok(None);
    };
    if is_confirmed(alloc, rows, ranges, multipliers.as_slice())? {
        Ok(Some(places_of(alloc, multipliers.as_slice())?))
    } else {
        Ok(None)
    }
}

// Whether the rows with these multipliers are a contradiction, in some scale.
fn is_confirmed(
    alloc: Global,
    rows: &[Row],
    ranges: &[Range],
    multipliers: &[Multiplier],
) -> Result<bool, NoMemory>
    ensures { IfOk result (λ yes. IsTrue yes → AreInConflict ranges.now rows.now (places multipliers.now)) }
{
    let least = least_weight(multipliers);
    for scale in [1.0, 2.0, 3.0, 4.0, 5.0, 6.0, 12.0] {
        if is_contradiction(alloc, rows, ranges, multipliers, scale / least)? {
            return Ok(true);
        }
    }
    Ok(false)
}

fn least_weight(multipliers: &[Multiplier]) -> f64 {
    let mut least = f64::INFINITY;
    for multiplier in multipliers {
        least = least.min(multiplier.weight);
    }
    least
}

// The places of the rows.
fn places_of(alloc: Global, multipliers: &[Multiplier]) -> Result<Vec<usize>, NoMemory>
    ensures { IfOk result (λ found. found.items ≡ places multipliers.now) }
{
    let mut found = Vec::new(alloc);
    for multiplier in multipliers {
        found.push(multiplier.place)?;
    }
    Ok(found)
}
