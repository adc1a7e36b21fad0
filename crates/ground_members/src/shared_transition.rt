ghost use Rattle.std.specs.Prelude.{◌≡◌, IfOk};
ghost use Rattle.macros.specs.Guards.{HasShape};
ghost use Rattle.ground_members.specs.Shared.{from_source};

use crate::transitions::GroundTransition;
use macros::FastGuard;
use rsml_ground::GroundGuard;
use rsml_syntax::NoMemory;
use std::alloc::Global;
use std::marker::Model;
use std::rc::Rc;

// A transition, and its guard prepared to be asked.
struct Whole {
    transition: GroundTransition,
    fast: FastGuard,
}

impl Drop for Whole {
    fn drop(self) {
        let Self {
            transition: _,
            fast: _,
        } = self;
    }
}

/// A transition that has all but its source in common with those like it, with its guard prepared to be asked. Contracts
/// see it as a transition by itself.
#[derive(Drop)]
pub struct SharedTransition {
    source: u32,
    event: u32,
    whole: Rc<Whole>,
}

impl Model for SharedTransition {
    ghost use Rattle.std.specs.Prelude.{◌≡◌};
    ghost use Rattle.ground_members.specs.declared.transitions.GroundTransition.{GroundTransition};
    ghost use Rattle.ground_members.specs.Shared.{from_source};

    ghost Value = { GroundTransition };

    ghost view = { λ t. from_source t.source t.whole.value.transition };

    ghost invariant = { λ t. (t.event ≡ t.whole.value.transition.event)
        × (t.whole.value.fast ≡ t.whole.value.transition.guard) };
}

impl SharedTransition {
    /// A transition, with none like it yet.
    pub fn new(alloc: Global, transition: GroundTransition) -> Result<SharedTransition, NoMemory>
        requires { HasShape transition.guard }
        ensures { IfOk result (λ t. t ≡ transition) }
    {
        let source = transition.source;
        let event = transition.event;
        let fast = FastGuard::new(alloc, &transition.guard)?;
        let whole = Rc::new(alloc, Whole { transition, fast })?;
        Ok(SharedTransition {
            source,
            event,
            whole,
        })
    }

    /// One from another source, and otherwise like this one.
    pub fn like(&self, source: u32) -> Result<SharedTransition, NoMemory>
        ensures { IfOk result (λ t. t ≡ from_source source self.now) }
    {
        let whole = self.whole.clone()?;
        Ok(SharedTransition {
            source,
            event: self.event,
            whole,
        })
    }

    /// The number of its component.
    pub fn component(&self) -> u32
        ensures { result ≡ self.now.component }
    {
        self.whole.transition.component
    }

    /// The number of the state that it leads from.
    pub fn source(&self) -> u32
        ensures { result ≡ self.now.source }
    {
        self.source
    }

    /// The number of the state that it leads to. A stay has none.
    pub fn target(&self) -> Option<u32>
        ensures { result ≡ self.now.target }
    {
        self.whole.transition.target
    }

    /// The number of its event.
    pub fn event(&self) -> u32
        ensures { result ≡ self.now.event }
    {
        self.event
    }

    /// Its guard.
    pub fn guard(&self) -> &GroundGuard
        ensures { result.now ≡ self.now.guard }
    {
        &self.whole.transition.guard
    }

    /// Its guard, prepared to be asked.
    pub fn fast_guard(&self) -> &FastGuard
        ensures { result.now ≡ self.now.guard }
    {
        &self.whole.fast
    }

    /// The numbers of the events that it raises, in order.
    pub fn raises(&self) -> &[u32]
        ensures { result.now ≡ self.now.raises }
    {
        self.whole.transition.raises.as_slice()
    }

    /// Its place in its component, counted from 1.
    pub fn ordinal(&self) -> u32
        ensures { result ≡ self.now.ordinal }
    {
        self.whole.transition.ordinal
    }
}
