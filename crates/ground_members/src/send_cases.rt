ghost use Rattle.std.specs.Prelude.{IfOk};
ghost use Rattle.rsml_ground.specs.Grounded.{IsGrounded};
ghost use Rattle.rsml_ground.specs.Numbers.{Keeps};
ghost use Rattle.ground_members.specs.Members.{AreSendCases};

use crate::instances::add_declared;
use crate::shared_case::SharedSendCase;
use phrase_builder::Lookup;
use rsml_ground::{Definition, GroundGuard, GroundSum, Phrases};
use rsml_syntax::{List, NoMemory};
use std::alloc::Global;

/// What a field gets: the number of a sum, or the value of a function instance.
#[derive(Debug)]
pub enum GroundValue {
    Sum(GroundSum),
    Function(u32),
}

impl Drop for GroundValue {
    fn drop(self) {
        match self {
            Self::Sum(_) => {}
            Self::Function(_) => {}
        }
    }
}

/// What a case of a send answers: nothing, or a value for each field.
#[derive(Debug)]
pub enum GroundAnswer {
    Quiet,
    Values(List<GroundValue>),
}

impl Drop for GroundAnswer {
    fn drop(self) {
        match self {
            Self::Quiet => {}
            Self::Values(_) => {}
        }
    }
}

/// A case of a send instance.
#[derive(Debug)]
pub struct GroundSendCase {
    pub send: u32,
    pub event: u32,
    pub guard: GroundGuard,
    pub answer: GroundAnswer,
    /// Its place among the cases of the send, counted from 1.
    pub ordinal: u32,
}

impl Drop for GroundSendCase {
    fn drop(self) {
        let Self {
            send: _,
            event: _,
            guard: _,
            answer: _,
            ordinal: _,
        } = self;
    }
}

/// The cases of the sends of a specification, over numbers, in order. Phrases that their guards need are added.
#[tactic(auto, using(phrase_builder::proofs::Declared::sizes_few))]
pub fn ground_send_cases(
    alloc: Global,
    lookup: &Lookup<'_, '_>,
    definitions: &[Definition],
    phrases: &mut Phrases,
) -> Result<Vec<SharedSendCase>, NoMemory>
    requires before { IsGrounded (record { spec = lookup.now; phrases = phrases.old; definitions = definitions.now }) }
    ensures after { IsGrounded (record { spec = lookup.now; phrases = phrases.new; definitions = definitions.now }) }
    ensures kept { Keeps phrases.old phrases.new }
    ensures are { IfOk result (λ cs. AreSendCases phrases.new lookup.now cs.items) }
{
    let decls = lookup.spec().decls.as_slice();
    let mut cases = Vec::new(alloc);
    for decl in decls {
        add_declared(&mut cases, alloc, lookup, definitions, phrases, decl)?;
    }
    Ok(cases)
}
