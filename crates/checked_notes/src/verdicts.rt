//! What is found of the columns of a table, in all instances.

use crate::asking::{is_within, never_holds};
use crate::columns::{are_apart, width_of};
use guard_encode::Encoder;
use rsml_base::NoMemory;
use std::alloc::Global;
use table_notes::Asked;

/// What is found of a column.
#[derive(Clone, Copy, PartialEq, Eq)]
pub enum Verdict {
    Useful,
    /// It is true in no world.
    Never,
    /// It is true only where the column at this place is.
    Within(usize),
}

/// Whether a column is true in no world.
fn is_never(
    alloc: Global,
    encoder: &mut Encoder<'_, '_>,
    instances: &[Asked<'_>],
    place: usize,
) -> Result<bool, NoMemory> {
    for asked in instances {
        if !never_holds(alloc, encoder, asked, place)? {
            return Ok(false);
        }
    }
    Ok(true)
}

/// Whether a column is true only where another is.
fn is_covered(
    alloc: Global,
    encoder: &mut Encoder<'_, '_>,
    instances: &[Asked<'_>],
    one: usize,
    other: usize,
) -> Result<bool, NoMemory> {
    for asked in instances {
        if are_apart(asked.rows, one, other) || !is_within(alloc, encoder, asked, one, other)? {
            return Ok(false);
        }
    }
    Ok(true)
}

/// Whether of two columns the first is to be told as true only where the other is. Of two that are the same the later one is.
fn is_told(
    alloc: Global,
    encoder: &mut Encoder<'_, '_>,
    instances: &[Asked<'_>],
    one: usize,
    other: usize,
) -> Result<bool, NoMemory> {
    if one == other || !is_covered(alloc, encoder, instances, one, other)? {
        return Ok(false);
    }
    if other < one {
        return Ok(true);
    }
    let same = is_covered(alloc, encoder, instances, other, one)?;
    Ok(!same)
}

/// What is found of a column of which it is known that it is true in some world, by what is found of the others.
fn of_column(
    alloc: Global,
    encoder: &mut Encoder<'_, '_>,
    instances: &[Asked<'_>],
    verdicts: &[Verdict],
    one: usize,
) -> Result<Verdict, NoMemory> {
    for (other, verdict) in verdicts.iter().enumerate() {
        if *verdict == Verdict::Useful && is_told(alloc, encoder, instances, one, other)? {
            return Ok(Verdict::Within(other));
        }
    }
    Ok(Verdict::Useful)
}

/// Sets what is found at a place.
fn set(verdicts: &mut Vec<Verdict>, place: usize, verdict: Verdict) {
    if place < verdicts.len() {
        verdicts[place] = verdict;
    }
}

/// Finds which columns are true in no world.
fn find_never(
    alloc: Global,
    encoder: &mut Encoder<'_, '_>,
    instances: &[Asked<'_>],
    verdicts: &mut Vec<Verdict>,
) -> Result<(), NoMemory> {
    for place in 0..verdicts.len() {
        if is_never(alloc, encoder, instances, place)? {
            set(verdicts, place, Verdict::Never);
        }
    }
    Ok(())
}

/// Finds which of the other columns are true only where another is.
fn find_within(
    alloc: Global,
    encoder: &mut Encoder<'_, '_>,
    instances: &[Asked<'_>],
    verdicts: &mut Vec<Verdict>,
) -> Result<(), NoMemory> {
    for place in 0..verdicts.len() {
        if verdicts.get(place) == Some(&Verdict::Useful) {
            let found = of_column(alloc, encoder, instances, verdicts.as_slice(), place)?;
            set(verdicts, place, found);
        }
    }
    Ok(())
}

/// How many columns the tables of instances have. A guard that is always true is a table of one column.
pub fn width_of_first(instances: &[Asked<'_>]) -> usize {
    match instances.first() {
        Some(asked) => width_of(asked.rows),
        None => 0,
    }
}

/// Finds what is to be told of each column of a table with these instances, of which none is told so far.
pub fn find_verdicts(
    alloc: Global,
    encoder: &mut Encoder<'_, '_>,
    instances: &[Asked<'_>],
    verdicts: &mut Vec<Verdict>,
) -> Result<(), NoMemory> {
    find_never(alloc, encoder, instances, verdicts)?;
    find_within(alloc, encoder, instances, verdicts)
}
