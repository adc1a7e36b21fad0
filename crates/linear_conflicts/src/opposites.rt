//! What proposes multipliers of two rows, before the simplex method is asked.
use crate::multiplier::Multiplier;
use crate::row::Row;
use crate::term::Term;
use rsml_base::NoMemory;
use std::alloc::Global;

/// A row, and the sum of the places of its variables, which is that of each opposite row.
#[derive(Clone, Copy)]
struct Candidate {
    place: usize,
    variables: u32,
}

/// Multipliers of two rows whose sums are opposite and that may not be met together, where there are such rows.
pub fn opposites(alloc: Global, rows: &[Row]) -> Result<Option<Vec<Multiplier>>, NoMemory> {
    let candidates = candidates(alloc, rows)?;
    for at in 0..candidates.len() {
        if let Some(other) = opposite(rows, candidates.as_slice(), at) {
            let mut found = Vec::with_capacity(alloc, 2)?;
            found.push(multiplier(candidates[at].place))?;
            found.push(multiplier(other))?;
            return Ok(Some(found));
        }
    }
    Ok(None)
}

fn multiplier(place: usize) -> Multiplier {
    Multiplier { place, weight: 1.0 }
}

// The rows, by these sums.
fn candidates(alloc: Global, rows: &[Row]) -> Result<Vec<Candidate>, NoMemory> {
    let mut candidates = Vec::with_capacity(alloc, rows.len())?;
    for row in rows {
        candidates.push(Candidate {
            place: candidates.len(),
            variables: variables(row.terms.as_slice()),
        })?;
    }
    candidates.sort_unstable_by_key(|row| row.variables);
    Ok(candidates)
}

fn variables(terms: &[Term]) -> u32 {
    let mut sum: u32 = 0;
    for term in terms {
        sum = sum.wrapping_add(term.variable);
    }
    sum
}

// The place of a row that may be the opposite of the one at a place: one of those that follow it with the same sum.
fn opposite(rows: &[Row], candidates: &[Candidate], at: usize) -> Option<usize> {
    let first = candidates.get(at)?;
    let row = rows.get(first.place)?;
    for next in at + 1..candidates.len() {
        let other = candidates[next];
        if other.variables != first.variables {
            return None;
        }
        if are_opposite(row, rows.get(other.place)?) {
            return Some(other.place);
        }
    }
    None
}

// Whether two sums are opposite, term by term in any order, and what they are at most is together below 0.
fn are_opposite(one: &Row, other: &Row) -> bool {
    one.most.saturating_add(other.most) < 0
        && one.terms.len() == other.terms.len()
        && one
            .terms
            .as_slice()
            .iter()
            .all(|term| has_opposite(other.terms.as_slice(), *term))
}

// Whether one of the terms is the opposite of a term.
fn has_opposite(terms: &[Term], term: Term) -> bool {
    terms.iter().any(|other| other.variable == term.variable
        && other.factor == term.factor.wrapping_neg())
}
