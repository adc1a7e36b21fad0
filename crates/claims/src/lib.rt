//! What a claim says of a world, when claims are inductive, and that such claims are true throughout every run: laws of the meaning.
#![tactic(auto)]

mod breaks;
mod inductive;
mod next_worlds;

pub use breaks::{breaks_tell_inductive_claims, least_breaks_are_one};
pub use inductive::inductive_claims_hold;
pub use next_worlds::next_worlds_tell_breaks;
