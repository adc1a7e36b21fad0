//! Claims as they are written: their tokens, whether they ask for states alone, and a specification that they are joined to.
#![tactic(auto)]

mod claim;
mod joining;

pub use claim::{Claim, first_other};
pub use joining::joined;
