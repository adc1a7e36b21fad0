//! Comparisons of the same sums, of which one holds exactly where the other does not.
use indexmap::IndexMap;
use macros::Macros;
use rsml_base::NoMemory;
use rsml_ground::{GroundPhrase, GroundSum};
use rsml_syntax::Relation;
use std::alloc::Global;

/// What a relation has in common with its opposite.
#[derive(Clone, Copy, PartialEq, Eq, Hash)]
enum Question {
    AreEqual,
    IsBelow,
    IsAtMost,
}

/// Two sums, and what is asked of them.
#[derive(Clone, Copy, PartialEq, Eq, Hash)]
pub struct Compared<'p> {
    left: &'p GroundSum,
    question: Question,
    right: &'p GroundSum,
}

fn question_of(relation: Relation) -> Question {
    match relation {
        Relation::Equal | Relation::NotEqual => Question::AreEqual,
        Relation::Less | Relation::GreaterEqual => Question::IsBelow,
        Relation::LessEqual | Relation::Greater => Question::IsAtMost,
    }
}

/// For each phrase the first that compares the same sums by the same or by the opposite relation. A phrase that compares no sums
/// stands for itself.
pub fn first_alike(alloc: Global, macros: &Macros<'_>) -> Result<Vec<u32>, NoMemory> {
    let mut known = IndexMap::new(alloc);
    firsts(alloc, &mut known, macros)
}

/// The same, where these comparisons are known.
pub fn firsts<'p>(
    alloc: Global,
    known: &mut IndexMap<Compared<'p>, u32>,
    macros: &'p Macros<'_>,
) -> Result<Vec<u32>, NoMemory> {
    let mut first = Vec::new(alloc);
    for number in 0..macros.phrases() {
        first.push(first_of(known, macros.phrase(number), number)?)?;
    }
    Ok(first)
}

/// The first phrase that is alike: the one of this number, where none is known.
pub fn first_of<'p>(
    known: &mut IndexMap<Compared<'p>, u32>,
    phrase: &'p GroundPhrase,
    number: u32,
) -> Result<u32, NoMemory> {
    let GroundPhrase::Compare {
        left,
        relation,
        right,
    } = phrase
    else {
        return Ok(number);
    };
    let compared = Compared {
        left,
        question: question_of(*relation),
        right,
    };
    if let Some(first) = known.get(&compared) {
        return Ok(*first);
    }
    known.insert(compared, number)?;
    Ok(number)
}
