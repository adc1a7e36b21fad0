ghost use Rattle.std.specs.Prelude.{◌≡◌, [], IfSome, Contains};
ghost use Rattle.bdd_core.specs.Steps.{GainsOnly, blank};

use crate::computed::{Computed, Kept};
use rsml_base::NoMemory;
use std::alloc::Global;

/// How many slots a table has at most: they take 0.27 GB.
const MOST_SLOTS: usize = 1 << 24;

/// The answers of one call that asks of places alone: a computed table that grows with the number
/// of answers.
#[derive(Drop)]
pub struct Answers {
    pub(crate) table: Computed,
    count: usize,
}

impl Answers {
    /// No answers, which take no memory.
    pub(crate) fn new(alloc: Global) -> Answers
        ensures { result.table.slots.items ≡ [] }
    {
        Answers {
            table: Computed::new(alloc),
            count: 0,
        }
    }

    /// The answer for a place, if it is kept.
    #[inline(always)]
    pub(crate) fn find(&self, f: u32) -> Option<u32>
        ensures { IfSome result (λ answer. Contains self.now.table.slots.items
            (record { f = f; g = 0; h = 0; answer = answer })) }
    {
        self.table.find(f, 0, 0)
    }

    /// Makes room for one more answer. It is an error where memory is refused and there are no slots.
    #[inline(always)]
    pub(crate) fn make_room(&mut self) -> Result<(), NoMemory>
        ensures { GainsOnly self.old.table.slots.items self.new.table.slots.items blank }
    {
        self.count = self.count.saturating_add(1).min(MOST_SLOTS);
        self.table.make_room(self.count)
    }

    /// Keeps the answer for a place.
    #[inline(always)]
    pub(crate) fn keep(&mut self, f: u32, answer: u32)
        ensures { GainsOnly self.old.table.slots.items self.new.table.slots.items
            (record { f = f; g = 0; h = 0; answer = answer }) }
    {
        self.table.keep(Kept {
            f,
            g: 0,
            h: 0,
            answer,
        });
    }
}
