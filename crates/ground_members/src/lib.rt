//! The transitions and the cases of sends of a specification, over numbers of states, events, phrases and cells.
#![tactic(auto)]

mod alike;
mod answers;
mod events;
mod instances;
mod send_cases;
mod shared_case;
mod shared_transition;
mod targets;
mod this;
mod transitions;
mod written;
mod written_sends;

pub use send_cases::{GroundAnswer, GroundSendCase, GroundValue, ground_send_cases};
pub use shared_case::SharedSendCase;
pub use shared_transition::SharedTransition;
pub use transitions::{GroundTransition, ground_transitions};
