ghost use Rattle.std.specs.Prelude.{◌≡◌, IfOk, List, ℤ, pos, neg_ℤ, ◌≤ℤ◌, ◌≤◌, length};
ghost use Rattle.std.specs.List.{AllZip};
ghost use Rattle.rsml_meaning.specs.Words.{Each};
ghost use Rattle.rsml_meaning.specs.Cells.{cells};
ghost use Rattle.rsml_ground.specs.Rests.{SumFits};
ghost use Rattle.rsml_ground.specs.StandsFor.{OperandIs, TermIs, SumIs};
ghost use Rattle.rsml_ground.specs.Truths.{term_number, sum_number};
ghost use Rattle.rsml_ground.specs.Scoped.{OperandIsScoped, SumIsScoped};
ghost use Rattle.phrase_builder.specs.Constants.{IsNumber, AreNumbers};

use crate::here::Here;
use crate::lookup::Lookup;
use rsml_ground::{GroundOperand, GroundSum, GroundTerm};
use rsml_syntax::{List, Mention, NoMemory, Operand, Sum, Term};
use std::alloc::Global;

// An input's cell, or the number of a constant or of a value of an enumeration.
#[tactic(auto, using(crate::proofs::Operands::mention_number))]
fn mentioned(lookup: &Lookup<'_, '_>, here: &Here<'_>, mention: &Mention) -> GroundOperand
    requires { OperandIsScoped lookup.now here.now (Operand.Mention mention.now) }
    ensures { OperandIs lookup.now here.now (Operand.Mention mention.now) result }
{
    if lookup.is_input(&mention.name) {
        GroundOperand::Cell(lookup.cell(here, mention))
    } else {
        GroundOperand::Number(lookup.number(&mention.name))
    }
}

// What an operand stands for.
fn operand(lookup: &Lookup<'_, '_>, here: &Here<'_>, operand: &Operand) -> GroundOperand
    requires { OperandIsScoped lookup.now here.now operand.now }
    ensures { OperandIs lookup.now here.now operand.now result }
{
    match operand {
        Operand::Number(number) => GroundOperand::Number(i64::from(*number)),
        Operand::Mention(mention) => mentioned(lookup, here, mention),
        Operand::Previous(mention) => GroundOperand::Cell(lookup.previous(here, mention)),
    }
}

// The terms of a sum.
fn terms(
    alloc: Global,
    lookup: &Lookup<'_, '_>,
    here: &Here<'_>,
    terms: &[Term],
) -> Result<List<GroundTerm>, NoMemory>
    requires { Each (λ t. OperandIsScoped lookup.now here.now t.operand) terms.now }
    ensures { IfOk result (λ g. AllZip (TermIs lookup.now here.now) terms.now g) }
{
    let mut found = List::with_capacity(alloc, terms.len())?;
    for term in terms {
        let operand = operand(lookup, here, &term.operand);
        found.push(GroundTerm {
            minus: term.minus,
            operand,
        })?;
    }
    Ok(found)
}

/// What a sum stands for.
pub fn ground_sum(
    alloc: Global,
    lookup: &Lookup<'_, '_>,
    here: &Here<'_>,
    sum: &Sum,
) -> Result<GroundSum, NoMemory>
    requires { SumIsScoped lookup.now here.now sum.now }
    ensures is { IfOk result (λ x. SumIs lookup.now here.now sum.now x) }
    ensures fits { IfOk result (λ x. SumFits (length (cells lookup.now)) x) }
{
    let terms = terms(alloc, lookup, here, sum.terms.as_slice())?;
    Ok(GroundSum { terms })
}

// The number of a term that is no cell.
#[tactic(auto, using(crate::proofs::Numbers::small_low, crate::proofs::Numbers::small_high))]
fn number_in(term: &GroundTerm) -> i64
    requires { IsNumber term.now }
    ensures is { (cells : List ℤ) → term_number cells term.now ≡ result }
    ensures low { neg_ℤ (pos 1000000000) ≤ℤ result }
    ensures high { result ≤ℤ pos 1000000000 }
{
    let GroundOperand::Number(number) = term.operand else {
        return 0;
    };
    if term.minus { -number } else { number }
}

/// The number of a sum of numbers.
pub fn constant(sum: &GroundSum) -> i64
    requires { AreNumbers sum.now }
    ensures { (cells : List ℤ) → sum_number cells sum.now ≡ result }
{
    total(sum.terms.as_slice())
}

// The sum of terms that are numbers.
fn total(terms: &[GroundTerm]) -> i64
    requires few { length terms.now ≤ 8 }
    requires numbers { Each IsNumber terms.now }
    ensures { (cells : List ℤ) → sum_number cells (record { terms = terms.now }) ≡ result }
{
    let mut total = 0;
    for term in terms {
        total += number_in(term);
    }
    total
}
