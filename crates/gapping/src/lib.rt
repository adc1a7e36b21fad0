//! What `gaps` comes to on a text; and `explain gaps`: the same, and comment lines behind it.
#![tactic(auto)]

mod explained;
mod gapping;

pub use explained::explain_gaps;
pub use gapping::gaps;
