//! What `prove` comes to on a specification and a text of claims; and `explain prove`: the same, and comment lines behind it.
#![tactic(auto)]

mod explained;
mod keeping;
mod laws;
mod moments;
mod proof_text;
mod proving;

pub use explained::explain_prove;
pub use laws::{done_is_proved, what_prove_answers_is_one};
pub use proving::prove;
