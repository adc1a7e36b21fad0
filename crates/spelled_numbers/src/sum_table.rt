//! Sums of levels, compared.
ghost use Rattle.std.specs.Prelude.{◌≡◌, ◌^◌, ◌<◌, ◌≤◌, Bool, not, nat_le, IfOk, pos, neg_ℤ, ◌-ℤ◌, ◌≤ℤ◌, int_lt, int_le};
ghost use Rattle.std.specs.Ordering.{int_eq};
ghost use Rattle.bdd_core.specs.Calls.{Keeps, Represents};
ghost use Rattle.spelled_numbers.specs.Sums.{signed_sum, weight_sum, total_weight, AreLevels, AddOnly, holds};
ghost use Rattle.spelled_numbers.specs.Steps.{AllRight};

use crate::comparison::Comparison;
use crate::kept::Kept;
use crate::rooms::{off_of, room_for, total_of};
use crate::weighted::Weighted;
use bdd_core::{Arena, Ref};
use rsml_base::NoMemory;
use std::alloc::Global;
use std::marker::Model;

/// How many answers a table can keep.
const SLOTS: usize = 4096;

/// Compares sums of levels. It keeps answers while it works on one comparison, and serves any
/// number of them, in any arenas.
#[derive(Drop)]
pub struct SumTable {
    pub(crate) slots: Vec<Option<Kept>>,
    pub(crate) question: u64,
}

impl Model for SumTable {
    ghost use Rattle.std.specs.Prelude.{◌≤◌, Contains, Some};
    ghost use Rattle.spelled_numbers.specs.declared.kept.Kept.{Kept};
    ghost use Rattle.spelled_numbers.specs.Table.{Table};

    ghost Value = { Table };

    ghost view = { λ t. record { question = t.question; slots = t.slots.items } };

    ghost invariant = { λ t. (kept : Kept) → Contains t.slots.items (Some kept) → kept.question ≤ t.question };
}

impl SumTable {
    /// A table that has had no question.
    pub fn new(alloc: Global) -> Result<SumTable, NoMemory> {
        Ok(SumTable {
            slots: vec![in alloc; None; SLOTS]?,
            question: 0,
        })
    }

    /// The function that is true exactly where the sum of the weights of the true levels, some of
    /// them taken off, compares so with `constant`. A level may stand in several terms.
    pub fn compare(
        &mut self,
        arena: &mut Arena,
        terms: &[Weighted],
        comparison: Comparison,
        constant: i64,
    ) -> Result<Ref, NoMemory>
        requires levels { AreLevels arena.old terms.now }
        requires small { total_weight terms.now < 2 ^ 44 }
        requires low { neg_ℤ (pos (2 ^ 44)) ≤ℤ constant }
        requires high { constant ≤ℤ pos (2 ^ 44) }
        ensures keeps { Keeps arena.old arena.new }
        ensures answer { IfOk result (Represents arena.new (λ values.
            holds comparison (signed_sum values terms.now) constant)) }
    {
        self.begin();
        match comparison {
            Comparison::Equal => self.equal(arena, terms, constant),
            Comparison::NotEqual => {
                let equal = self.equal(arena, terms, constant)?;
                arena.not(equal)
            }
            Comparison::Less => self.up_to(arena, terms, constant - 1),
            Comparison::LessEqual => self.up_to(arena, terms, constant),
            Comparison::Greater => self.above(arena, terms, constant),
            Comparison::GreaterEqual => self.above(arena, terms, constant - 1),
        }
    }

    /// The function that is true exactly where the weights of the true levels, none of them taken
    /// off, sum to at most `most`.
    pub fn at_most(
        &mut self,
        arena: &mut Arena,
        terms: &[Weighted],
        most: u64,
    ) -> Result<Ref, NoMemory>
        requires levels { AreLevels arena.old terms.now }
        requires add { AddOnly terms.now }
        requires small { total_weight terms.now < 2 ^ 64 }
        ensures keeps { Keeps arena.old arena.new }
        ensures answer { IfOk result (Represents arena.new (λ values.
            nat_le (weight_sum values terms.now) most)) }
    {
        self.begin();
        self.build(arena, terms, total_of(terms), most)
    }

    /// Where the sum is this number.
    fn equal(&mut self, arena: &mut Arena, terms: &[Weighted], number: i64) -> Result<Ref, NoMemory>
        requires levels { AreLevels arena.old terms.now }
        requires small { total_weight terms.now < 2 ^ 44 }
        requires low { neg_ℤ (pos (2 ^ 44)) ≤ℤ number }
        requires high { number ≤ℤ pos (2 ^ 44) }
        requires right { AllRight arena.old terms.now self.old }
        ensures keeps { Keeps arena.old arena.new }
        ensures answer { IfOk result (Represents arena.new (λ values.
            int_eq (signed_sum values terms.now) number)) }
    {
        let most = self.up_to(arena, terms, number)?;
        let least = self.above(arena, terms, number - 1)?;
        arena.and(most, least)
    }

    /// Where the sum is greater than the bound.
    fn above(&mut self, arena: &mut Arena, terms: &[Weighted], bound: i64) -> Result<Ref, NoMemory>
        requires levels { AreLevels arena.old terms.now }
        requires small { total_weight terms.now < 2 ^ 44 }
        requires low { (neg_ℤ (pos (2 ^ 44)) -ℤ pos 1) ≤ℤ bound }
        requires high { bound ≤ℤ pos (2 ^ 44) }
        requires right { AllRight arena.old terms.now self.old }
        ensures keeps { Keeps arena.old arena.new }
        ensures answer { IfOk result (Represents arena.new (λ values.
            int_lt bound (signed_sum values terms.now))) }
    {
        let most = self.up_to(arena, terms, bound)?;
        arena.not(most)
    }

    /// Where the sum is at most the bound.
    fn up_to(&mut self, arena: &mut Arena, terms: &[Weighted], bound: i64) -> Result<Ref, NoMemory>
        requires levels { AreLevels arena.old terms.now }
        requires small { total_weight terms.now < 2 ^ 44 }
        requires low { (neg_ℤ (pos (2 ^ 44)) -ℤ pos 1) ≤ℤ bound }
        requires high { bound ≤ℤ pos (2 ^ 44) }
        requires right { AllRight arena.old terms.now self.old }
        ensures keeps { Keeps arena.old arena.new }
        ensures right { AllRight arena.new terms.now self.new }
        ensures answer { IfOk result (Represents arena.new (λ values.
            int_le (signed_sum values terms.now) bound)) }
    {
        match room_for(off_of(terms), bound) {
            None => Ok(arena.constant(false)),
            Some(room) => self.build(arena, terms, total_of(terms), room),
        }
    }
}
