//! The command `demo`: the specification and the events that it generates, that it is certified, and their summary.
#![tactic(auto)]

mod demonstrating;
mod events;
mod laws;
mod text;

pub use demonstrating::demo;
pub use events::generate_events;
pub use laws::{demo_events_are_well_formed, demos_are_certified};
pub use text::generate;
