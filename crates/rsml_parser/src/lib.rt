//! Reads tokens as specifications, or finds the place of their first fault.
#![tactic(auto, unfolding(crate::specs::Parsers::and_then))]

mod cases;
mod claims;
mod declarations;
mod error;
mod laws;
mod list;
mod mentions;
mod phrases;
mod reader;
mod specification;
mod states;
mod sums;
mod tables;

pub use claims::{ClaimsError, parse_claims};
pub use error::ParseError;
pub use laws::{
    at_most_one_specification, claims_are_unambiguous, deep_token_opens_inside_sixteen,
    grammar_is_unambiguous, joined_is_well_formed, layout_reads_again, tokens_have_one_answer,
};
pub use specification::{MOST_TOKENS, parse};
