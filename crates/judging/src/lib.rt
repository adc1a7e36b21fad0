//! Judges the bytes of a specification: whether they read, keep the rules and the limits, and are certified.
#![tactic(auto)]

mod fault_lines;
mod judging;
mod keeping;
mod kept_text;
mod texts;

pub use fault_lines::{lexical_fault, parse_fault, rule_fault};
pub use judging::{Judgement, judge};
pub use keeping::kept;
pub use kept_text::Kept;
pub use texts::{ReadText, read_first_edition, read_text};
