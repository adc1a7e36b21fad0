//! Tells where a fault of a specification stands, and what is wrong, in words.
#![tactic(auto)]

mod braces;
mod characters;
mod expectations;
mod faults;
mod habits;
mod hints;
mod lexical;
mod mends;
mod others;
mod ruling;
mod site;
mod syntactic;
mod token_kind;
mod trials;

pub use faults::fault_notes;
pub use lexical::lexical_notes;
pub use ruling::rule_notes;
pub use syntactic::syntax_notes;
