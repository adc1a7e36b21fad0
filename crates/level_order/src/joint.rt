//! Comparisons of two machines that are alike.
ghost use Rattle.std.specs.Prelude.{◌≡◌, ℕ, All, IfOk, OnOk, List as Items, length};
ghost use Rattle.rsml_meaning.specs.Cells.{cells};
ghost use Rattle.rsml_ground.specs.Rests.{RestsOn};
ghost use Rattle.rsml_ground.specs.declared.definitions.Definition.{Definition};
ghost use Rattle.keyed_levels.specs.Keyed.{PhraseFits};

use crate::alike::{Compared, first_of, firsts};
use indexmap::IndexMap;
use macros::Macros;
use rsml_base::{List, NoMemory};
use rsml_ground::{GroundPhrase, GroundSum, GroundTerm};
use std::alloc::Global;

/// For each phrase of two machines the first comparison like it, and the comparisons of the second that are like none of the first. These
/// have the numbers after the phrases of the first.
#[derive(Drop)]
pub struct AlikeInTwo {
    pub one: Vec<u32>,
    pub two: Vec<u32>,
    pub beside: Vec<GroundPhrase>,
}

impl AlikeInTwo {
    /// How many numbers there are, where this is the first machine. NoMemory where a `u32` does not count them.
    pub fn count(&self, one: &Macros<'_>) -> Result<u32, NoMemory> {
        number_after(one, self.beside.as_slice())
    }
}

/// Which comparisons of two machines are alike.
pub fn alike_in_two<'p>(
    alloc: Global,
    one: &'p Macros<'_>,
    two: &'p Macros<'_>,
) -> Result<AlikeInTwo, NoMemory>
    ensures { IfOk result (λ a. All (PhraseFits (length (cells two.now.spec))) a.beside.items) }
{
    let mut known = IndexMap::new(alloc);
    let alike = firsts(alloc, &mut known, one)?;
    let mut others = Vec::new(alloc);
    let mut beside = Vec::new(alloc);
    for number in 0..two.phrases() {
        let phrase = two.phrase(number);
        let first = first_in_two(alloc, &mut known, one, &mut beside, phrase)?;
        others.push(first)?;
    }
    Ok(AlikeInTwo {
        one: alike,
        two: others,
        beside,
    })
}

/// The first comparison that is like a phrase of the second machine. Where none is known, a copy of it is added to those beside the
/// phrases of the first.
fn first_in_two<'p>(
    alloc: Global,
    known: &mut IndexMap<Compared<'p>, u32>,
    one: &Macros<'_>,
    beside: &mut Vec<GroundPhrase>,
    phrase: &'p GroundPhrase,
) -> Result<u32, NoMemory>
    ensures { OnOk result ((definitions : Items Definition) (cells n : ℕ) → RestsOn definitions cells n phrase.now
        → All (PhraseFits cells) beside.old.items → All (PhraseFits cells) beside.new.items) }
{
    let next = number_after(one, beside.as_slice())?;
    let first = first_of(known, phrase, next)?;
    if first == next {
        add(alloc, beside, phrase)?;
    }
    Ok(first)
}

/// Adds a copy of a phrase, if it is a comparison.
fn add(alloc: Global, beside: &mut Vec<GroundPhrase>, phrase: &GroundPhrase) -> Result<(), NoMemory>
    ensures { OnOk result ((definitions : Items Definition) (cells n : ℕ) → RestsOn definitions cells n phrase.now
        → All (PhraseFits cells) beside.old.items → All (PhraseFits cells) beside.new.items) }
{
    match phrase {
        GroundPhrase::Compare {
            left,
            relation,
            right,
        } => {
            let one = copied(alloc, left)?;
            let two = copied(alloc, right)?;
            beside.push(GroundPhrase::Compare {
                left: one,
                relation: *relation,
                right: two,
            })?;
            Ok(())
        }
        _ => Ok(()),
    }
}

/// The number after the phrases of a machine and comparisons beside them.
fn number_after(one: &Macros<'_>, beside: &[GroundPhrase]) -> Result<u32, NoMemory> {
    let Ok(many) = u32::try_from(beside.len()) else {
        return Err(NoMemory);
    };
    one.phrases().checked_add(many).ok_or(NoMemory)
}

/// A copy of a sum.
fn copied(alloc: Global, sum: &GroundSum) -> Result<GroundSum, NoMemory>
    ensures { IfOk result (λ copy. copy.terms ≡ sum.now.terms) }
{
    let terms = terms_of(alloc, sum.terms.as_slice())?;
    Ok(GroundSum { terms })
}

/// A copy of terms.
fn terms_of(alloc: Global, terms: &[GroundTerm]) -> Result<List<GroundTerm>, NoMemory>
    ensures { IfOk result (λ copy. copy ≡ terms.now) }
{
    let mut copy = List::with_capacity(alloc, terms.len())?;
    for term in terms {
        copy.push(*term)?;
    }
    Ok(copy)
}
