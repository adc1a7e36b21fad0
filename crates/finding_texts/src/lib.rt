//! How what is found of groups is written.
#![tactic(auto)]

mod cells;
mod choices;
mod enabled;
mod findings;
mod found;
mod groups;
mod members;
mod states;
mod verdict;

pub use findings::Findings;
pub use found::{put_head, put_world};
pub use members::put_member;
pub use states::put_state;
pub use verdict::Verdict;
