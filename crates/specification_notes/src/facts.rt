//! What is known of states.

use crate::events::Event;
use indexmap::IndexSet;
use rsml_base::{NoMemory, Text};
use std::alloc::Global;

/// What may be known of a state.
#[derive(Clone, Copy, PartialEq, Eq, Hash)]
pub enum Fact {
    /// It is on the path to a target.
    IsAimedAt,
    /// It is never entered.
    IsMissed,
    /// A transition leads from it.
    IsLeft,
    /// A transition is in it.
    IsBusy,
    /// A transition on the event leads from it.
    Reacts(Event),
    /// A transition on the event is in it.
    ReactsInside(Event),
    /// Its transitions on the event were looked at.
    WasAsked(Event),
}

/// What is known of the state whose name stands at an offset.
#[derive(Clone, Copy, PartialEq, Eq, Hash)]
struct Known {
    state: u32,
    fact: Fact,
}

/// What is known of all states. Once memory is refused, facts may be missing; then `whole` is out of memory.
#[derive(Drop)]
pub struct Facts {
    all: IndexSet<Known>,
    is_refused: bool,
}

impl Facts {
    /// Nothing so far.
    pub fn new(alloc: Global) -> Facts {
        Facts {
            all: IndexSet::new(alloc),
            is_refused: false,
        }
    }

    /// Adds a fact of a state. Whether it is new.
    pub fn add(&mut self, state: &Text, fact: Fact) -> bool {
        let known = Known {
            state: state.at(),
            fact,
        };
        match self.all.insert(known) {
            Ok(is_new) => is_new,
            Err(_) => {
                self.is_refused = true;
                false
            }
        }
    }

    /// Whether a fact of a state is known.
    pub fn has(&self, state: &Text, fact: Fact) -> bool {
        let known = Known {
            state: state.at(),
            fact,
        };
        self.all.contains(&known)
    }

    /// Whether no fact is missing.
    pub fn whole(&self) -> Result<(), NoMemory> {
        if self.is_refused {
            Err(NoMemory)
        } else {
            Ok(())
        }
    }
}
