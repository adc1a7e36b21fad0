//! The arena: its nodes, and the tables of answers that were found before.
ghost use Rattle.std.specs.Prelude.{◌≡◌, ◌↔◌, ℕ, Bool, true, false, length, IsTrue, IfOk};
ghost use Rattle.bdd_core.specs.Diagram.{IsRef, IsReduced, IsCanonical, meaning};
ghost use Rattle.bdd_core.specs.Calls.{Represents};

mod choose;
mod cut;
mod forget;
mod nodes;
mod read;
mod support;

use crate::computed::Computed;
use crate::node::{FALSE, TRUE};
use crate::reference::Ref;
use crate::unique::Unique;
use rsml_base::NoMemory;
use std::alloc::Global;
use std::marker::Model;

/// Boolean functions of levels, each a node of a reduced ordered binary decision diagram. A call
/// answers the handle of its function, and where memory is refused `NoMemory`; in both cases every
/// earlier handle keeps its node and its function. No node is ever freed. Contracts see the arena
/// as the number of its levels and the list of its nodes.
pub struct Arena {
    levels: u32,
    nodes: Unique,
    choices: Computed,
    cuts: Computed,
}

impl Drop for Arena {
    fn drop(self) {
        let Self {
            levels: _,
            nodes: _,
            choices: _,
            cuts: _,
        } = self;
    }
}

impl Model for Arena {
    ghost use Rattle.bdd_core.specs.Diagram.{Diagram};
    ghost use Rattle.bdd_core.specs.Holds.{ArenaHolds};

    ghost Value = { Diagram };

    ghost view = { λ a. record { levels = a.levels; nodes = a.nodes } };

    ghost invariant = { λ a. ArenaHolds (record { levels = a.levels; nodes = a.nodes })
        a.choices.slots.items a.cuts.slots.items };
}

impl Arena {
    /// An arena of functions of so many levels, which has the two constants alone.
    pub fn new(alloc: Global, levels: u32) -> Result<Arena, NoMemory>
        ensures levels { IfOk result (λ arena. arena.levels ≡ levels) }
        ensures nodes { IfOk result (λ arena. length arena.nodes ≡ 2) }
    {
        let nodes = Unique::new(alloc, levels)?;
        Ok(Arena {
            levels,
            nodes,
            choices: Computed::new(alloc),
            cuts: Computed::new(alloc),
        })
    }

    /// How many nodes the arena has, the two constants counted.
    pub fn node_count(&self) -> usize
        ensures { result ≡ length self.now.nodes }
    {
        self.nodes.len()
    }

    /// The function that has one value everywhere.
    pub fn constant(&self, value: bool) -> Ref
        ensures { Represents self.now (λ values. value) result }
    {
        // To look at a field makes the invariant of the arena known to the proof.
        let _ = &self.levels;
        Ref::at(if value { TRUE } else { FALSE })
    }

    /// Whether the function is false everywhere.
    pub fn is_false(&self, f: Ref) -> bool
        requires { IsRef self.now f }
        ensures { IsTrue result ↔ ((values : ℕ → Bool) → meaning self.now f values ≡ false) }
    {
        let _ = &self.levels;
        f == Ref::at(FALSE)
    }

    /// Whether the function is true everywhere.
    pub fn is_true(&self, f: Ref) -> bool
        requires { IsRef self.now f }
        ensures { IsTrue result ↔ ((values : ℕ → Bool) → meaning self.now f values ≡ true) }
    {
        let _ = &self.levels;
        f == Ref::at(TRUE)
    }

    /// The laws of an arena, which a call of this function tells its caller: two handles are equal
    /// exactly where their functions are, and the nodes are ordered and reduced. It does nothing.
    pub fn laws(&self)
        ensures canonical { IsCanonical self.now }
        ensures reduced { IsReduced self.now }
    {
        let _ = &self.levels;
    }
}
