//! What `explain` comes to on a text: what `check` does, and comment lines behind it; and what is told where memory was refused.
#![tactic(auto)]

mod explaining;

pub use explaining::{explain, explained, memory_notes};
