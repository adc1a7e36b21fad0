//! The commands that follow an event file by a certified specification: `simulate` and `cover`.
#![tactic(auto)]

mod ends;
mod event_action;
mod following;
mod noting;
mod starting;

pub use event_action::EventAction;
pub use following::follow;
