//! Bounds of cells as levels.
ghost use Rattle.std.specs.Prelude.{◌≡◌, ◌<◌, ◌&&◌, IfOk, IfSome, int_le, length, neg_ℤ, pos, slice_index_or};
ghost use Rattle.rsml_meaning.specs.Cells.{cells};
ghost use Rattle.guard_encode.specs.Bounds as spec;
ghost use Rattle.guard_encode.specs.Encoding.{Grows, Keeps, Tells, without_bounds, worlds_of};
ghost use Rattle.keyed_levels.specs.Keyed.{PhraseFits, StandsFor};

use crate::encoder::Encoder;
use bdd_core::Ref;
use rsml_base::{List, NoMemory};
use rsml_ground::{GroundOperand, GroundPhrase, GroundSum, GroundTerm};
use rsml_syntax::Relation;
use std::alloc::Global;

impl<'m, 'a> Encoder<'m, 'a> {
    /// True in the worlds in which a cell has at most this number. Where the comparison of a level names the cell, a level stands for the
    /// bound: one that does already, or else a spare one.
    #[tactic(auto, using(crate::proofs::BoundLemmas::keeps_grows, crate::proofs::BoundLemmas::grows_itself))]
    pub fn bound(&mut self, alloc: Global, cell: u32, number: i64) -> Result<Ref, NoMemory>
        requires { cell < length (cells self.old.machine.base.spec) }
        ensures grows { Grows self.old self.new }
        ensures answer { IfOk result (Tells self.new (λ w. int_le (slice_index_or w.cells cell (pos 0)) number)) }
    {
        match self.bound_level(alloc, cell, number)? {
            Some(level) => self.bound_at(cell, number, level),
            None => self.at_most(cell, number),
        }
    }

    /// The same, where a level stands for it.
    fn bound_at(&mut self, cell: u32, number: i64, level: u32) -> Result<Ref, NoMemory>
        requires { StandsFor (worlds_of self.old) (spec.at_most cell number) level }
        ensures keeps { Keeps self.old self.new }
        ensures answer { IfOk result (Tells self.new (λ w. int_le (slice_index_or w.cells cell (pos 0)) number)) }
    {
        self.arena.var(level)
    }

    /// A level that stands for that bound, where one does or is spare.
    #[tactic(auto, using(crate::proofs::BoundLemmas::keeps_grows, crate::proofs::BoundLemmas::grows_itself))]
    fn bound_level(
        &mut self,
        alloc: Global,
        cell: u32,
        number: i64,
    ) -> Result<Option<u32>, NoMemory>
        requires { cell < length (cells self.old.machine.base.spec) }
        ensures grows { Grows self.old self.new }
        ensures level { IfOk result (λ found. IfSome found (StandsFor (worlds_of self.new) (spec.at_most cell number))) }
    {
        if !self.is_bound(cell, number) {
            return Ok(None);
        }
        if !is_small(number) {
            return Ok(None);
        }
        let bound = at_most(alloc, cell, number)?;
        self.stand_for(bound)
    }

    /// A level that stands for a comparison from now on, where one does or is spare.
    #[tactic(auto, using(crate::proofs::BoundLemmas::keeps_grows, crate::proofs::BoundLemmas::grows_itself))]
    fn stand_for(&mut self, bound: GroundPhrase) -> Result<Option<u32>, NoMemory>
        requires { PhraseFits (length (cells self.old.machine.base.spec)) bound }
        ensures grows { Grows self.old self.new }
        ensures level { IfOk result (λ found. IfSome found (StandsFor (worlds_of self.new) bound)) }
    {
        self.exact.push()?;
        let level = self.levels.stand_for(bound);
        self.exact.keep(self.levels.keys().len());
        level
    }

    /// Whether the comparison of a level names a cell, and some of its numbers are greater than one.
    fn is_bound(&self, cell: u32, number: i64) -> bool
        requires { cell < length (cells self.now.machine.base.spec) }
    {
        self.is_named(cell) && number < self.machine.worlds().high(cell)
    }

    /// Whether the comparison of a level names a cell, bounds left out.
    pub fn is_named(&self, cell: u32) -> bool {
        match self.named.get(cell as usize) {
            Some(is) => *is,
            None => false,
        }
    }

    /// Takes back all bounds. What was told of them is told no more.
    pub fn without_bounds(&mut self)
        ensures { self.new ≡ without_bounds self.old }
    {
        self.levels.without_bounds();
        self.exact.keep(self.levels.keys().len());
    }
}

/// Whether a specification can write a number.
fn is_small(number: i64) -> bool
    ensures { result ≡ (int_le (neg_ℤ (pos 1000000000)) number && int_le number (pos 1000000000)) }
{
    -1_000_000_000 <= number && number <= 1_000_000_000
}

/// The comparison by which a cell has at most a number.
fn at_most(alloc: Global, cell: u32, number: i64) -> Result<GroundPhrase, NoMemory>
    ensures { IfOk result (λ bound. bound ≡ spec.at_most cell number) }
{
    Ok(GroundPhrase::Compare {
        left: sum_of(alloc, GroundOperand::Cell(cell))?,
        relation: Relation::LessEqual,
        right: sum_of(alloc, GroundOperand::Number(number))?,
    })
}

/// The sum of one operand.
fn sum_of(alloc: Global, operand: GroundOperand) -> Result<GroundSum, NoMemory>
    ensures { IfOk result (λ sum. sum ≡ spec.sum_of operand) }
{
    let mut terms = List::new(alloc);
    terms.push(GroundTerm {
        minus: false,
        operand,
    })?;
    Ok(GroundSum { terms })
}
