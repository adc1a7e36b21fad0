//! Answers that were found before.
ghost use Rattle.std.specs.Prelude.{◌≡◌, [], length, IfSome, Contains};
ghost use Rattle.bdd_core.specs.Steps.{GainsOnly, blank};

use rsml_base::NoMemory;
use std::alloc::Global;

/// The answer to a question, which three numbers name.
#[derive(Clone, Copy)]
pub struct Kept {
    pub(crate) f: u32,
    pub(crate) g: u32,
    pub(crate) h: u32,
    pub(crate) answer: u32,
}

const BLANK: Kept = Kept {
    f: 0,
    g: 0,
    h: 0,
    answer: 0,
};

/// How many slots a table begins with.
const FIRST_SLOTS: usize = 4096;

/// A computed table. An answer stands in the one slot of its question, and a later one may take its
/// place.
#[derive(Drop)]
pub struct Computed {
    pub(crate) slots: Vec<Kept>,
}

impl Computed {
    /// A table without slots, which takes no memory.
    pub(crate) fn new(alloc: Global) -> Computed
        ensures { result.slots.items ≡ [] }
    {
        Computed {
            slots: Vec::new(alloc),
        }
    }

    /// What it takes its memory from.
    pub(crate) fn allocator(&self) -> Global {
        *self.slots.allocator()
    }

    /// The answer to a question, if it is kept.
    #[inline(always)]
    pub(crate) fn find(&self, f: u32, g: u32, h: u32) -> Option<u32>
        ensures { IfSome result (λ answer.
            Contains self.now.slots.items (record { f = f; g = g; h = h; answer = answer })) }
    {
        let kept = self.slots.get(slot_of(f, g, h, self.slots.len()))?;
        if kept.f == f && kept.g == g && kept.h == h {
            Some(kept.answer)
        } else {
            None
        }
    }

    /// Keeps an answer, where the table has slots.
    #[inline(always)]
    pub(crate) fn keep(&mut self, kept: Kept)
        ensures gains { GainsOnly self.old.slots.items self.new.slots.items kept }
        ensures len { length self.new.slots.items ≡ length self.old.slots.items }
    {
        let slot = slot_of(kept.f, kept.g, kept.h, self.slots.len());
        if slot < self.slots.len() {
            self.slots[slot] = kept;
        }
    }

    /// Gives the table more slots where it has fewer than there are nodes. It keeps its answers.
    /// Where memory is refused it goes on with the slots that it has, and it is an error to have none:
    /// without answers the work would be exponential.
    #[inline(always)]
    pub(crate) fn make_room(&mut self, nodes: usize) -> Result<(), NoMemory>
        ensures { GainsOnly self.old.slots.items self.new.slots.items blank }
    {
        if self.slots.len() < nodes {
            self.widen()
        } else {
            Ok(())
        }
    }

    #[inline(never)]
    fn widen(&mut self) -> Result<(), NoMemory>
        ensures { GainsOnly self.old.slots.items self.new.slots.items blank }
    {
        let before = self.slots.len();
        let room = before.saturating_mul(2).max(FIRST_SLOTS);
        if self.slots.resize(room, BLANK).is_ok() {
            self.spread(before);
            Ok(())
        } else if before > 0 {
            Ok(())
        } else {
            Err(NoMemory)
        }
    }

    /// Copies each answer of the first slots to the slot that its question has now. What is left in
    /// the old slot is still right.
    fn spread(&mut self, before: usize)
        ensures { GainsOnly self.old.slots.items self.new.slots.items blank }
    {
        let room = self.slots.len();
        for slot in 0..before.min(room) {
            let kept = self.slots[slot];
            self.keep(kept);
        }
    }
}

/// The slot of a question, where the number of slots is a power of two. Any slot would do: this one
/// goes up with `f`, so the questions that differ in `f` alone, which come one after the other, stand
/// side by side.
#[inline(always)]
fn slot_of(f: u32, g: u32, h: u32, slots: usize) -> usize {
    let start = (g as u64)
        .wrapping_mul(0x9e37_79b9_7f4a_7c15)
        .wrapping_add((h as u64).wrapping_mul(0xd6e8_feb8_6659_fd93));
    (start >> 32).wrapping_add(f as u64) as usize & slots.saturating_sub(1)
}
