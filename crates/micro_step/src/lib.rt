//! Micro-steps of a specification over numbers.
#![tactic(auto)]

mod asking;
mod candidates;
mod learning;
mod moves;
mod needed;
mod prepared;
mod raising;
mod reading;
mod rising;
mod rows;
mod scratch;
mod steps;
mod values;

pub use moves::{apply_in, enter_all};
pub use scratch::Scratch;
pub use steps::{micro, react};
