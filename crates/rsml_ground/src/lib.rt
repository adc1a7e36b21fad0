//! Ground phrases: the tables, cases and sums of a specification over numbers of phrases and cells, what they
//! say in a world, when they stand for those of the text, and the children with which a state is active.
#![tactic(auto)]

mod choices;
mod definitions;
mod laws;
mod numbered;
mod phrase_laws;
mod phrases;
mod sums;

pub use choices::{Choice, are_chosen, choices_around};
pub use definitions::{Definition, GroundCase, GroundGuard};
pub use laws::{
    functions_mean_the_text, guards_mean_the_text, phrases_mean_the_text, sums_mean_the_text,
    truths_are_of_phrases,
};
pub use numbered::Phrases;
pub use phrase_laws::rules_scope_phrases;
pub use phrases::GroundPhrase;
pub use sums::{GroundOperand, GroundSum, GroundTerm};
