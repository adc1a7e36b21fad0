//! Reads the tokens of a text.
#![tactic(auto)]

mod blanks;
mod fault;
mod front;
mod keywords;
mod laws;
mod lexing;
mod names;
mod numbers;
mod punctuation;

pub use fault::LexError;
pub use laws::{always_one, at_most_one_first_fault, at_most_one_token_list, never_both};
pub use lexing::{GREATEST_TEXT, lex, lex_edition_1};
