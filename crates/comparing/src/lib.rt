//! What `same` comes to on a specification and the text of another; and `explain same`: the same, and comment lines behind it.
#![tactic(auto)]

mod comparing;
mod comparison;
mod difference_text;
mod explained;
mod laws;

pub use comparing::compare;
pub use explained::explain_compare;
pub use laws::{same_texts_behave_alike, what_same_answers_is_one};
