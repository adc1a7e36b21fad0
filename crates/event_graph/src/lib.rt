//! A graph of numbered events: the lengths of its chains, its loops, and its first clashes.
#![tactic(auto)]

mod answers;
mod chains;
mod clash;
mod clashes;
mod events;
mod graph;
mod lengths;
mod loops;
mod rounds;
mod sets;

pub use chains::Chains;
pub use clash::Clash;
pub use events::Events;
pub use graph::EventGraph;
pub use rounds::Rounds;
pub use sets::{no_events, put_in};
