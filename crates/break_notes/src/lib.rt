//! What a person is told of claims: comment lines behind what `prove` writes, with the cells that fail, or what is wrong in their file.
#![tactic(auto)]

mod drawing;
mod faults;
mod joining;
mod moves;
mod noting;
mod telling;

pub use faults::claims_fault_notes;
pub use noting::{Subject, break_notes};
