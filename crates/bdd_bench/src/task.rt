ghost use Rattle.std.specs.Prelude.{◌≡◌, ◌≤◌, length, IfOk, IfSome};
ghost use Rattle.bdd_core.specs.Diagram.{IsRef};
ghost use Rattle.bdd_bench.specs.Fits.{Fits, levels_of};

use crate::{chain, equal, forget, queens, tables};
use bdd_core::{Arena, Ref};
use rsml_base::NoMemory;

/// A task, of a size.
#[derive(Clone, Copy)]
pub enum Task {
    /// So many queens on a board of as many rows and columns.
    Queens(u32),
    /// `x = y` for numbers of so many bits, all bits of `x` before those of `y`.
    Equal(u32),
    /// The conjunction of so many random tables.
    Tables(u32),
    /// What is left of so many random tables where the first levels are forgotten, one part after
    /// another.
    Forget(u32),
    /// The same, one level after another.
    Singly(u32),
    /// The conjunction of so many variables, from the last to the first, and calls that go down all
    /// of it.
    Bottom(u32),
    /// The conjunction of so many variables from the first on, a thousand at a time.
    Top(u32),
}

impl Task {
    /// The task that a word names, as `queens=8`. None where it names none, or one of a size that
    /// is out of range.
    pub fn from_word(word: &str) -> Option<Task>
        ensures { IfSome result Fits }
    {
        let (name, number) = word.split_once('=')?;
        let size = number.parse::<u32>().ok()?;
        match name {
            "queens" if size <= queens::MAX_SIZE => Some(Task::Queens(size)),
            "equal" if size <= equal::MAX_BITS => Some(Task::Equal(size)),
            "tables" => Some(Task::Tables(size)),
            "forget" => Some(Task::Forget(size)),
            "singly" => Some(Task::Singly(size)),
            "bottom" => Some(Task::Bottom(size)),
            "top" => Some(Task::Top(size)),
            _ => None,
        }
    }

    /// How many levels its arena has.
    pub fn levels(self) -> u32
        ensures { result ≡ levels_of self }
    {
        match self {
            Task::Queens(_)
            | Task::Equal(_)
            | Task::Tables(_)
            | Task::Forget(_)
            | Task::Singly(_) => 128,
            Task::Bottom(size) | Task::Top(size) => size,
        }
    }

    /// Its answer, in an arena of so many levels.
    pub fn answer(self, arena: &mut Arena) -> Result<Ref, NoMemory>
        requires fits { Fits self }
        requires levels { arena.old.levels ≡ levels_of self }
        ensures { IfOk result (IsRef arena.new) }
    {
        match self {
            Task::Queens(size) => queens::queens(arena, size),
            Task::Equal(bits) => equal::equal(arena, bits),
            Task::Tables(count) => tables::tables(arena, count),
            Task::Forget(count) => forget::forgotten(arena, count),
            Task::Singly(count) => forget::singly(arena, count),
            Task::Bottom(size) => chain::bottom(arena, size),
            Task::Top(size) => chain::top(arena, size),
        }
    }
}
