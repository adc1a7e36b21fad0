ghost use Rattle.std.specs.Prelude.{◌≡◌, IfOk, map};
ghost use Rattle.event_chains.specs.Reactions.{source_of, send_of};

use ground_members::{SharedSendCase, SharedTransition};
use rsml_syntax::NoMemory;
use std::alloc::Global;

/// A state or a send instance, by its number, and an event that it reacts to.
#[derive(Clone, Copy)]
pub struct Reaction {
    pub owner: u32,
    pub event: u32,
}

/// The source of each transition, with its event.
pub fn sources(alloc: Global, transitions: &[SharedTransition]) -> Result<Vec<Reaction>, NoMemory>
    ensures { IfOk result (λ rs. rs.items ≡ map source_of transitions.now) }
{
    let mut reactions = Vec::new(alloc);
    for transition in transitions {
        reactions.push(Reaction {
            owner: transition.source(),
            event: transition.event(),
        })?;
    }
    Ok(reactions)
}

/// The send instance of each case, with its event.
pub fn sends(alloc: Global, send_cases: &[SharedSendCase]) -> Result<Vec<Reaction>, NoMemory>
    ensures { IfOk result (λ rs. rs.items ≡ map send_of send_cases.now) }
{
    let mut reactions = Vec::new(alloc);
    for case in send_cases {
        reactions.push(Reaction {
            owner: case.send(),
            event: case.event(),
        })?;
    }
    Ok(reactions)
}
