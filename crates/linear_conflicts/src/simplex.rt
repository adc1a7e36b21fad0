//! What proposes multipliers: the simplex method, in rounded numbers. Nothing is said of it but that it ends.
ghost use Rattle.std.specs.Prelude.{◌<◌, IfSome, length};

use crate::line::Line;
use crate::multiplier::Multiplier;
use crate::range::Range;
use crate::row::Row;
use crate::term::Term;
use crate::variable::{NEAR, Variable};
use rsml_base::NoMemory;
use std::alloc::Global;
use std::num::nearest_i64_to_f64;

// No more variables than this are exchanged.
const TURNS: usize = 500;

// Where the sums have more factors than this in all, none is looked for.
const FACTORS: usize = 262144;

/// Multipliers of rows whose sum may be a contradiction, where some are found.
pub fn multipliers(
    alloc: Global,
    rows: &[Row],
    ranges: &[Range],
) -> Result<Option<Vec<Multiplier>>, NoMemory> {
    let named = named(alloc, rows)?;
    if named.len().saturating_mul(rows.len()) > FACTORS {
        return Ok(None);
    }
    let mut free = inputs(alloc, named.as_slice(), ranges)?;
    let mut lines = sums(alloc, rows, named.as_slice(), free.as_slice())?;
    search(alloc, lines.as_mut_slice(), free.as_mut_slice())
}

// The variables that the rows name, each once, in their order. By its place among them a variable is numbered here.
fn named(alloc: Global, rows: &[Row]) -> Result<Vec<u32>, NoMemory> {
    let mut named = Vec::new(alloc);
    for row in rows {
        for term in row.terms.as_slice() {
            named.push(term.variable)?;
        }
    }
    named.sort_unstable();
    named.dedup();
    Ok(named)
}

// The inputs, each at the low end of its range.
fn inputs(alloc: Global, named: &[u32], ranges: &[Range]) -> Result<Vec<Variable>, NoMemory> {
    let mut inputs = Vec::with_capacity(alloc, named.len())?;
    for variable in named {
        if let Some(range) = ranges.get(*variable as usize) {
            let low = nearest_i64_to_f64(range.low);
            inputs.push(Variable {
                row: None,
                low,
                high: nearest_i64_to_f64(range.high),
                value: low,
            })?;
        }
    }
    Ok(inputs)
}

// The sums of the rows, as sums of inputs.
fn sums(
    alloc: Global,
    rows: &[Row],
    named: &[u32],
    inputs: &[Variable],
) -> Result<Vec<Line>, NoMemory> {
    let mut lines = Vec::with_capacity(alloc, rows.len())?;
    for row in rows {
        let place = lines.len();
        lines.push(line(alloc, place, row, named, inputs)?)?;
    }
    Ok(lines)
}

// The sum of a row.
fn line(
    alloc: Global,
    place: usize,
    row: &Row,
    named: &[u32],
    inputs: &[Variable],
) -> Result<Line, NoMemory> {
    let variable = Variable {
        row: Some(place),
        low: f64::NEG_INFINITY,
        high: nearest_i64_to_f64(row.most),
        value: 0.0,
    };
    let factors = Vec::from_elem(alloc, 0.0, inputs.len())?;
    let mut line = Line { variable, factors };
    for term in row.terms.as_slice() {
        add_term(&mut line, term, named, inputs);
    }
    Ok(line)
}

// Adds a term to a sum.
fn add_term(line: &mut Line, term: &Term, named: &[u32], inputs: &[Variable]) {
    if let Ok(number) = named.binary_search(&term.variable)
        && let Some(factor) = line.factors.get_mut(number)
        && let Some(input) = inputs.get(number)
    {
        let more = nearest_i64_to_f64(term.factor);
        *factor += more;
        line.variable.value += more * input.value;
    }
}

// Brings one sum after another into its range, until one cannot be brought there.
fn search(
    alloc: Global,
    lines: &mut [Line],
    free: &mut [Variable],
) -> Result<Option<Vec<Multiplier>>, NoMemory> {
    for _turn in 0..TURNS {
        let Some(place) = outside(lines) else {
            return Ok(None);
        };
        lines.swap(0, place);
        let Some((line, others)) = lines.split_first_mut() else {
            return Ok(None);
        };
        let Some(place) = line.mover(free) else {
            return Ok(Some(weights(alloc, line, free)?));
        };
        let Some(by) = line.exchange(free, place) else {
            return Ok(None);
        };
        for other in others.iter_mut() {
            other.replace(place, line, by);
        }
    }
    Ok(None)
}

// The place of the first sum that is not within its range.
fn outside(lines: &[Line]) -> Option<usize>
    ensures { IfSome result (λ place. place < length lines.now) }
{
    for place in 0..lines.len() {
        if !lines[place].variable.is_within() {
            return Some(place);
        }
    }
    None
}

// The multipliers of the rows, where no free variable brings the sum into its range.
fn weights(alloc: Global, line: &Line, free: &[Variable]) -> Result<Vec<Multiplier>, NoMemory> {
    let mut found = Vec::new(alloc);
    if let Some(place) = line.variable.row {
        found.push(Multiplier { place, weight: 1.0 })?;
    }
    for (factor, variable) in line.factors.iter().zip(free.iter()) {
        let weight = factor.abs();
        if let Some(place) = variable.row
            && weight > NEAR
        {
            found.push(Multiplier { place, weight })?;
        }
    }
    Ok(found)
}
