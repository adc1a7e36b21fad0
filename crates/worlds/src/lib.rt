//! The worlds of a specification: whether choices and numbers are one child for each component and one number of its type for
//! each cell.
#![tactic(auto)]

mod cell_ends;
mod ends;
mod first;
mod worlds;

pub use worlds::Worlds;
