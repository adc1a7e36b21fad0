ghost use Rattle.std.specs.Prelude.{◌≡◌, IfOk, map};
ghost use Rattle.macros.specs.Pairs as spec;

use rsml_ground::{GroundPhrase, GroundSum, GroundTerm, Phrases};
use rsml_syntax::{NoMemory, Relation};
use std::alloc::Global;

/// A comparison of one term with one term.
#[derive(Clone, Copy, Debug)]
pub struct Pair {
    pub left: GroundTerm,
    pub relation: Relation,
    pub right: GroundTerm,
}

/// For each phrase the comparison of one term with one term that it is. None where it is another phrase.
pub fn pairs_of(alloc: Global, phrases: &Phrases) -> Result<Vec<Option<Pair>>, NoMemory>
    ensures { IfOk result (λ pairs. pairs.items ≡ map spec.pair_of phrases.now) }
{
    let mut pairs = Vec::with_capacity(alloc, phrases.len() as usize)?;
    for number in 0..phrases.len() {
        pairs.push(pair_of(phrases.get(number)))?;
    }
    Ok(pairs)
}

/// The comparison of one term with one term that a phrase is.
fn pair_of(phrase: &GroundPhrase) -> Option<Pair>
    ensures { result ≡ spec.pair_of phrase.now }
{
    match phrase {
        GroundPhrase::Compare {
            left,
            relation,
            right,
        } => paired(one_term(left), *relation, one_term(right)),
        _ => None,
    }
}

/// The comparison of two terms, where both are there.
fn paired(left: Option<GroundTerm>, relation: Relation, right: Option<GroundTerm>) -> Option<Pair>
    ensures { result ≡ spec.paired left relation right }
{
    let left = left?;
    let right = right?;
    Some(Pair {
        left,
        relation,
        right,
    })
}

/// The term of a sum of one term.
fn one_term(sum: &GroundSum) -> Option<GroundTerm>
    ensures { result ≡ spec.one_term sum.now }
{
    match sum.terms.as_slice() {
        [term] => Some(*term),
        _ => None,
    }
}
