//! A checked specification over numbers: one machine, which stands for the specification.
#![tactic(auto)]

mod behaviour;
mod count;
mod external;
mod instances;
mod laws;
mod machine;
mod members;
mod on_events;
mod receives;
mod written;

pub use laws::{
    conditions_are_those_of_the_text, members_are_enabled_as_in_the_text,
    soundness_is_that_of_the_text,
};
pub use machine::{Machine, elaborate};
