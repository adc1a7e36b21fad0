//! The columns of the worlds in which a function of an encoder holds.
#![tactic(auto)]

mod asking;
mod cells;
mod column;
mod components;
mod gaps;
mod group;
mod later;
mod parts;
mod spans;

pub use gaps::columns;
pub use group::group_gaps;
