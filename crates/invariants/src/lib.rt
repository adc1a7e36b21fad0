//! Whether claims about states are inductive, and where they are not, the least break.
#![tactic(auto)]

mod asking;
mod choices;
mod claimed;
mod found;
mod moves;
mod proof;
mod proving;
mod rounds;
mod starts;
mod states;
mod subsets;
mod tables;

pub use proof::{Break, Proof};
pub use proving::inductive;
