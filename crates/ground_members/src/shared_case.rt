ghost use Rattle.std.specs.Prelude.{◌≡◌, IfOk};
ghost use Rattle.macros.specs.Guards.{HasShape};
ghost use Rattle.ground_members.specs.Shared.{of_send};

use crate::send_cases::{GroundAnswer, GroundSendCase};
use macros::FastGuard;
use rsml_ground::GroundGuard;
use rsml_syntax::NoMemory;
use std::alloc::Global;
use std::marker::Model;
use std::rc::Rc;

// A case of a send, and its guard prepared to be asked.
struct WholeCase {
    case: GroundSendCase,
    fast: FastGuard,
}

impl Drop for WholeCase {
    fn drop(self) {
        let Self { case: _, fast: _ } = self;
    }
}

/// A case of a send that has all but the send in common with those like it, with its guard prepared to be asked. Contracts
/// see it as a case by itself.
#[derive(Drop)]
pub struct SharedSendCase {
    send: u32,
    event: u32,
    whole: Rc<WholeCase>,
}

impl Model for SharedSendCase {
    ghost use Rattle.std.specs.Prelude.{◌≡◌};
    ghost use Rattle.ground_members.specs.declared.send_cases.GroundSendCase.{GroundSendCase};
    ghost use Rattle.ground_members.specs.Shared.{of_send};

    ghost Value = { GroundSendCase };

    ghost view = { λ c. of_send c.send c.whole.value.case };

    ghost invariant = { λ c. (c.event ≡ c.whole.value.case.event)
        × (c.whole.value.fast ≡ c.whole.value.case.guard) };
}

impl SharedSendCase {
    /// A case, with none like it yet.
    pub fn new(alloc: Global, case: GroundSendCase) -> Result<SharedSendCase, NoMemory>
        requires { HasShape case.guard }
        ensures { IfOk result (λ c. c ≡ case) }
    {
        let send = case.send;
        let event = case.event;
        let fast = FastGuard::new(alloc, &case.guard)?;
        let whole = Rc::new(alloc, WholeCase { case, fast })?;
        Ok(SharedSendCase { send, event, whole })
    }

    /// One of another send, and otherwise like this one.
    pub fn like(&self, send: u32) -> Result<SharedSendCase, NoMemory>
        ensures { IfOk result (λ c. c ≡ of_send send self.now) }
    {
        let whole = self.whole.clone()?;
        Ok(SharedSendCase {
            send,
            event: self.event,
            whole,
        })
    }

    /// The number of its send.
    pub fn send(&self) -> u32
        ensures { result ≡ self.now.send }
    {
        self.send
    }

    /// The number of its event.
    pub fn event(&self) -> u32
        ensures { result ≡ self.now.event }
    {
        self.event
    }

    /// Its guard.
    pub fn guard(&self) -> &GroundGuard
        ensures { result.now ≡ self.now.guard }
    {
        &self.whole.case.guard
    }

    /// Its guard, prepared to be asked.
    pub fn fast_guard(&self) -> &FastGuard
        ensures { result.now ≡ self.now.guard }
    {
        &self.whole.fast
    }

    /// What it answers.
    pub fn answer(&self) -> &GroundAnswer
        ensures { result.now ≡ self.now.answer }
    {
        &self.whole.case.answer
    }

    /// Its place among the cases of the send, counted from 1.
    pub fn ordinal(&self) -> u32
        ensures { result ≡ self.now.ordinal }
    {
        self.whole.case.ordinal
    }
}
