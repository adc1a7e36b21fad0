//! Comparisons, and the levels that stand for them or for their opposites.
ghost use Rattle.std.specs.Prelude.{◌≡◌, ◌<◌, IfOk, IfSome, IsTrue, length};
ghost use Rattle.rsml_syntax.specs.rules.Relations as relations;
ghost use Rattle.rsml_meaning.specs.Cells.{cells as all_cells};
ghost use Rattle.rsml_ground.specs.declared.phrases.GroundPhrase.TheVariants as phrases;
ghost use Rattle.rsml_ground.specs.Rests.{SumFits};
ghost use Rattle.rsml_ground.specs.Truths as spec;
ghost use Rattle.bdd_core.specs.Calls.{Keeps};
ghost use Rattle.keyed_levels.specs.Keyed.{StandsFor, Tells};
ghost use Rattle.guard_encode.specs.Opposites.{AreOpposite};

use bdd_core::{Arena, Ref};
use keyed_levels::KeyedLevels;
use phrase_diagrams::compare;
use rsml_base::NoMemory;
use rsml_ground::{GroundPhrase, GroundSum};
use rsml_syntax::Relation;
use spelled_numbers::SumTable;
use std::alloc::Global;

/// The first phrase that is like the one of a number.
pub fn first_like(alike: &[u32], number: u32) -> u32 {
    match alike.get(number as usize) {
        Some(first) => *first,
        None => number,
    }
}

/// Where a relation holds between two sums: the level that stands for it, or the negation of that which stands for its opposite, where
/// the phrase of this number is that comparison and has a level; or else the exact diagram.
pub fn of_comparison(
    alloc: Global,
    arena: &mut Arena,
    sums: &mut SumTable,
    levels: &KeyedLevels<'_, '_>,
    like: u32,
    left: &GroundSum,
    relation: Relation,
    right: &GroundSum,
) -> Result<Ref, NoMemory>
    requires room { arena.old.levels ≡ length levels.now.slots }
    requires left { SumFits (length (all_cells levels.now.base.spec)) left.now }
    requires right { SumFits (length (all_cells levels.now.base.spec)) right.now }
    ensures keeps { Keeps arena.old arena.new }
    ensures answer { IfOk result (Tells arena.new levels.now (λ w. relations.compare relation
        (spec.sum_number w.cells left.now) (spec.sum_number w.cells right.now))) }
{
    if let Some(level) = level_of(levels, like, left, relation, right) {
        return arena.var(level);
    }
    if let Some(level) = level_of(levels, like, left, opposite(relation), right) {
        let other = arena.var(level)?;
        return arena.not(other);
    }
    compare(alloc, arena, sums, levels.layout(), left, relation, right)
}

/// The level that stands for a comparison, where the phrase of this number is that comparison and has one.
fn level_of(
    levels: &KeyedLevels<'_, '_>,
    phrase: u32,
    left: &GroundSum,
    relation: Relation,
    right: &GroundSum,
) -> Option<u32>
    ensures stands { IfSome result (StandsFor levels.now (phrases.Compare left.now relation right.now)) }
    ensures within { IfSome result (λ level. level < length levels.now.slots) }
{
    let Some(place) = levels.key_of(phrase) else {
        return None;
    };
    let keys = levels.keys();
    let key = keys[place as usize];
    let compared = levels.phrase(key.phrase);
    if is_comparison(compared, left, relation, right) {
        Some(key.level)
    } else {
        None
    }
}

/// Whether a phrase is this comparison.
fn is_comparison(
    phrase: &GroundPhrase,
    left: &GroundSum,
    relation: Relation,
    right: &GroundSum,
) -> bool
    ensures { IsTrue result → phrase.now ≡ phrases.Compare left.now relation right.now }
{
    match phrase {
        GroundPhrase::Compare {
            left: low,
            relation: other,
            right: high,
        } => *other == relation && are_same(low, left, high, right),
        _ => false,
    }
}

/// Whether two sums are the same, and two others.
#[tactic(auto, using(rsml_ground::proofs::Equal::sum_same))]
fn are_same(low: &GroundSum, left: &GroundSum, high: &GroundSum, right: &GroundSum) -> bool
    ensures low { IsTrue result → low.now ≡ left.now }
    ensures high { IsTrue result → high.now ≡ right.now }
{
    low == left && high == right
}

/// The relation that holds where another does not.
fn opposite(relation: Relation) -> Relation
    ensures { AreOpposite relation result }
{
    match relation {
        Relation::Equal => Relation::NotEqual,
        Relation::NotEqual => Relation::Equal,
        Relation::Less => Relation::GreaterEqual,
        Relation::LessEqual => Relation::Greater,
        Relation::Greater => Relation::LessEqual,
        Relation::GreaterEqual => Relation::Less,
    }
}
