//! Answers that were found before.
ghost use Rattle.std.specs.Prelude.{◌≡◌, List, IfSome, Contains};
ghost use Rattle.bdd_core.specs.Diagram.{Diagram};
ghost use Rattle.spelled_numbers.specs.declared.weighted.Weighted.{Weighted};
ghost use Rattle.spelled_numbers.specs.Steps.{AllRight, GainsOnly};

use crate::sum_table::SumTable;
use bdd_core::Ref;

/// The answer to one step of a question: where the levels from `at` on sum to at most `room`.
#[derive(Clone, Copy)]
pub struct Kept {
    pub(crate) question: u64,
    pub(crate) at: usize,
    pub(crate) room: u64,
    pub(crate) answer: Ref,
}

impl SumTable {
    /// Begins a question, of which no answer is kept. A table that has had 2^64 of them forgets all
    /// its slots.
    pub(crate) fn begin(&mut self)
        ensures { (d : Diagram) (terms : List Weighted) → AllRight d terms self.new }
    {
        if self.question == u64::MAX {
            self.slots.clear();
        } else {
            self.question += 1;
        }
    }

    /// The answer to a step of this question, if it is kept.
    #[inline(always)]
    pub(crate) fn find(&self, at: usize, room: u64) -> Option<Ref>
        ensures { IfSome result (λ answer. Contains self.now.slots (Some
            (record { question = self.now.question; at = at; room = room; answer = answer }))) }
    {
        let kept = (*self.slots.get(slot_of(at, room, self.slots.len()))?)?;
        if kept.question == self.question && kept.at == at && kept.room == room {
            Some(kept.answer)
        } else {
            None
        }
    }

    /// Keeps the answer to a step of this question. It may take the place of another one.
    #[inline(always)]
    pub(crate) fn keep(&mut self, at: usize, room: u64, answer: Ref)
        ensures question { self.new.question ≡ self.old.question }
        ensures gains { GainsOnly self.old.slots self.new.slots
            (record { question = self.old.question; at = at; room = room; answer = answer }) }
    {
        let slot = slot_of(at, room, self.slots.len());
        let question = self.question;
        if slot < self.slots.len() {
            self.slots[slot] = Some(Kept {
                question,
                at,
                room,
                answer,
            });
        }
    }
}

/// The slot of a step, where the number of slots is a power of two. Any slot would do.
#[inline(always)]
fn slot_of(at: usize, room: u64, slots: usize) -> usize {
    let x = (at as u64).wrapping_mul(0x9e37_79b9_7f4a_7c15);
    let y = (x ^ (x >> 29) ^ room).wrapping_mul(0xd6e8_feb8_6659_fd93);
    (y ^ (y >> 32)) as usize & slots.saturating_sub(1)
}
