//! Rows of linear inequalities that the numbers of cells meet where comparisons have given truths.
ghost use Rattle.std.specs.Prelude.{◌≡◌, ◌++◌, [], All, IfOk, IfSome, OnOk};
ghost use Rattle.rsml_ground.specs.Rests.{IsSmall};
ghost use Rattle.rsml_ground.specs.Truths.{operand_number, sum_number, term_number};
ghost use Rattle.phrase_diagrams.specs.Signs.{IsWithin};
ghost use Rattle.settled_worlds.specs.Conflicts as spec;
ghost use Rattle.settled_worlds.specs.Conflicts.{AreRows, IsRowOf, IsSmallSum, IsThere};

use crate::literal::Literal;
use crate::margins::{margin, turned};
use crate::one_key::key;
use keyed_levels::KeyedLevels;
use linear_conflicts::{Row, Term};
use rsml_base::NoMemory;
use rsml_ground::{GroundOperand, GroundPhrase, GroundSum, GroundTerm};
use std::alloc::Global;

/// Rows, and of each the literal where it is met.
pub(crate) struct Rows {
    pub rows: Vec<Row>,
    pub literals: Vec<Literal>,
}

impl Drop for Rows {
    fn drop(self) {
        let Self {
            rows: _,
            literals: _,
        } = self;
    }
}

/// The rows of literals. The numbers of the cells meet those of a literal where its comparison has its truth.
#[tactic(auto, using(crate::proofs::RowLemmas::no_rows))]
pub(crate) fn rows_of(
    alloc: Global,
    levels: &KeyedLevels<'_, '_>,
    literals: &[Literal],
) -> Result<Rows, NoMemory>
    requires { All (IsThere levels.now) literals.now }
    ensures { IfOk result (AreRows levels.now) }
{
    let mut rows = Rows {
        rows: Vec::new(alloc),
        literals: Vec::new(alloc),
    };
    for literal in literals {
        push_literal(alloc, &mut rows, levels, *literal)?;
    }
    Ok(rows)
}

/// Puts the rows of a literal at the end.
#[tactic(auto, using(crate::proofs::RowLemmas::small_sum))]
fn push_literal(
    alloc: Global,
    rows: &mut Rows,
    levels: &KeyedLevels<'_, '_>,
    literal: Literal,
) -> Result<(), NoMemory>
    requires there { IsThere levels.now literal }
    requires rows { AreRows levels.now rows.old }
    ensures { OnOk result (AreRows levels.now rows.new) }
{
    if let GroundPhrase::Compare {
        left,
        relation,
        right,
    } = levels.phrase(key(levels, literal.place).phrase)
    {
        let above = margin(*relation, literal.truth);
        push_side(alloc, rows, literal, left, above, right)?;
        let below = margin(turned(*relation), literal.truth);
        push_side(alloc, rows, literal, right, below, left)?;
    }
    Ok(())
}

/// Puts the row at the end that is met where the first sum is at most so far above the second.
fn push_side(
    alloc: Global,
    rows: &mut Rows,
    literal: Literal,
    first: &GroundSum,
    margin: Option<i64>,
    second: &GroundSum,
) -> Result<(), NoMemory>
    requires first { IsSmallSum first.now }
    requires second { IsSmallSum second.now }
    requires small { IfSome margin (IsWithin 1) }
    ensures { OnOk result (spec.Adds literal first.now margin second.now rows.old rows.new) }
{
    if let Some(margin) = margin {
        rows.rows.push(row_of(alloc, first, second, margin)?)?;
        rows.literals.push(literal)?;
    }
    Ok(())
}

/// The row that is met where the first sum is at most so far above the second.
fn row_of(
    alloc: Global,
    first: &GroundSum,
    second: &GroundSum,
    margin: i64,
) -> Result<Row, NoMemory>
    requires first { IsSmallSum first.now }
    requires second { IsSmallSum second.now }
    requires small { IsWithin 1 margin }
    ensures { IfOk result (IsRowOf first.now second.now margin) }
{
    let mut terms = Vec::new(alloc);
    push_sum(&mut terms, first, false)?;
    push_sum(&mut terms, second, true)?;
    let most = margin + constant(second) - constant(first);
    Ok(Row { terms, most })
}

/// Puts the cells of a sum at the end, with their signs, or with the other signs.
fn push_sum(terms: &mut Vec<Term>, sum: &GroundSum, minus: bool) -> Result<(), NoMemory>
    ensures { OnOk result (terms.new.items ≡ terms.old.items ++ spec.sum_terms minus sum.now) }
{
    for term in sum.terms.as_slice() {
        push_term(terms, *term, minus)?;
    }
    Ok(())
}

/// Puts the cell of a term at the end.
fn push_term(terms: &mut Vec<Term>, term: GroundTerm, minus: bool) -> Result<(), NoMemory>
    ensures { OnOk result (terms.new.items ≡ terms.old.items ++ spec.term_terms minus term) }
{
    if let GroundOperand::Cell(variable) = term.operand {
        let factor = if term.minus == minus { 1 } else { -1 };
        terms.push(Term { variable, factor })?;
    }
    Ok(())
}

/// The sum of the numbers among the terms of a sum.
fn constant(sum: &GroundSum) -> i64
    requires { IsSmallSum sum.now }
    ensures number { result ≡ sum_number [] sum.now }
    ensures small { IsWithin 8000000000 result }
{
    let mut total = 0;
    for term in sum.terms.as_slice() {
        total += signed_number(*term);
    }
    total
}

/// The number of a term, with its sign. That of a cell is 0.
fn signed_number(term: GroundTerm) -> i64
    requires { IsSmall (operand_number [] term.operand) }
    ensures number { result ≡ term_number [] term }
    ensures small { IsSmall result }
{
    let number = number(term.operand);
    if term.minus { -number } else { number }
}

/// A number, or 0 for a cell.
fn number(operand: GroundOperand) -> i64
    requires { IsSmall (operand_number [] operand) }
    ensures number { result ≡ operand_number [] operand }
    ensures small { IsSmall result }
{
    match operand {
        GroundOperand::Number(number) => number,
        GroundOperand::Cell(_) => 0,
    }
}
