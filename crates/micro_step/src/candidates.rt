ghost use Rattle.std.specs.Prelude.{◌≡◌, ◌<◌, ◌==◌, ◌||◌, ◌&&◌, ℕ, All};
ghost use Rattle.std.specs.List.{list_any};
ghost use Rattle.rsml_meaning.specs.Worlds.{IsWorld};
ghost use Rattle.rsml_ground.specs.Truths.{truths_in};
ghost use Rattle.macros.specs.Known.{Knows};
ghost use Rattle.macros.specs.Asked.{asked_truth};
ghost use Rattle.micro_step.specs.Candidates as spec;
ghost use Rattle.micro_step.specs.Candidates.{Fits, KnowsGuards};
ghost use Rattle.micro_step.specs.Rising.{AreRising, among};

use crate::asking::is_true;
use crate::rising::Rising;
use elaborate::Machine;
use macros::{Asked, Memo};
use rsml_ground::{Choice, are_chosen};
use rsml_syntax::World;

/// A transition, or a case of a send, by its number: the children that make its source active, and how its guard is asked. Where
/// the truth of the guard is kept once it is known, it is kept at the number of a transition with the same guard.
pub struct Candidate {
    pub number: u32,
    pub choices: Vec<Choice>,
    pub asked: Asked,
    pub kept_at: Option<u32>,
}

impl Drop for Candidate {
    fn drop(self) {
        let Self {
            number: _,
            choices: _,
            asked: _,
            kept_at: _,
        } = self;
    }
}

/// Whether the guard of a candidate is true in the world. One whose truth is kept is asked once.
fn holds(
    machine: &Machine<'_>,
    world: &World,
    memo: &mut Memo,
    guards: &mut Memo,
    candidate: &Candidate,
) -> bool
    requires world { IsWorld machine.now.base.spec world.now }
    requires knows { Knows machine.now.base world.now memo.old }
    requires guards { KnowsGuards machine.now world.now guards.old }
    requires fits { Fits machine.now candidate.now }
    ensures truth { result ≡ asked_truth (truths_in machine.now.base world.now) candidate.now.asked }
    ensures knows { Knows machine.now.base world.now memo.new }
    ensures guards { KnowsGuards machine.now world.now guards.new }
{
    let Some(number) = candidate.kept_at else {
        return is_true(machine, world, memo, &candidate.asked);
    };
    if guards.knows(number) {
        return guards.truths().get(number);
    }
    let truth = is_true(machine, world, memo, &candidate.asked);
    guards.learn(number, truth);
    truth
}

/// Whether a candidate is enabled in the world.
fn is_met(
    machine: &Machine<'_>,
    world: &World,
    memo: &mut Memo,
    guards: &mut Memo,
    candidate: &Candidate,
) -> bool
    requires world { IsWorld machine.now.base.spec world.now }
    requires knows { Knows machine.now.base world.now memo.old }
    requires guards { KnowsGuards machine.now world.now guards.old }
    requires fits { Fits machine.now candidate.now }
    ensures met { result ≡ spec.is_met machine.now world.now candidate.now }
    ensures knows { Knows machine.now.base world.now memo.new }
    ensures guards { KnowsGuards machine.now world.now guards.new }
{
    are_chosen(world.choices.as_slice(), candidate.choices.as_slice())
        && holds(machine, world, memo, guards, candidate)
}

/// Puts in the number of a candidate if it is enabled.
fn put_one(
    machine: &Machine<'_>,
    world: &World,
    memo: &mut Memo,
    guards: &mut Memo,
    candidate: &Candidate,
    found: &mut Rising,
)
    requires world { IsWorld machine.now.base.spec world.now }
    requires knows { Knows machine.now.base world.now memo.old }
    requires guards { KnowsGuards machine.now world.now guards.old }
    requires fits { Fits machine.now candidate.now }
    requires number { candidate.now.number < found.old.below }
    requires rising { AreRising found.old.items }
    ensures among { (q : ℕ) → among found.new.items q ≡ (among found.old.items q
        || (candidate.now.number == q && spec.is_met machine.now world.now candidate.now)) }
    ensures rising { AreRising found.new.items }
    ensures bound { found.new.below ≡ found.old.below }
    ensures knows { Knows machine.now.base world.now memo.new }
    ensures guards { KnowsGuards machine.now world.now guards.new }
{
    if !is_met(machine, world, memo, guards, candidate) {
        return;
    }
    found.put(candidate.number);
}

/// Puts in the numbers of the candidates that are enabled in the world.
pub fn put_enabled(
    machine: &Machine<'_>,
    world: &World,
    memo: &mut Memo,
    guards: &mut Memo,
    candidates: &[Candidate],
    found: &mut Rising,
)
    requires world { IsWorld machine.now.base.spec world.now }
    requires knows { Knows machine.now.base world.now memo.old }
    requires guards { KnowsGuards machine.now world.now guards.old }
    requires fits { All (Fits machine.now) candidates.now }
    requires numbers { All (λ c. c.number < found.old.below) candidates.now }
    requires rising { AreRising found.old.items }
    ensures among { (q : ℕ) → among found.new.items q ≡ (among found.old.items q
        || list_any (λ c. c.number == q && spec.is_met machine.now world.now c) candidates.now) }
    ensures rising { AreRising found.new.items }
    ensures bound { found.new.below ≡ found.old.below }
    ensures knows { Knows machine.now.base world.now memo.new }
    ensures guards { KnowsGuards machine.now world.now guards.new }
{
    for candidate in candidates {
        put_one(machine, world, memo, guards, candidate, found);
    }
}
