//! Claims over numbers of states: what they say in a world, and how they are made of the claims of the text.
#![tactic(auto)]

mod claim;
mod grounding;
mod phrase;
mod phrases;
mod tables;

pub use claim::{ClaimRow, GroundClaim};
pub use grounding::ground_claims;
pub use phrase::StatePhrase;
