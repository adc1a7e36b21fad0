//! The analysis of a specification: its chains of events and its groups, and the report on them.
#![tactic(auto)]

mod analysing;
mod chain_lines;
mod chains;
mod clash_lines;
mod finding_lines;
mod found;
mod head;
mod last;
mod loop_lines;
mod refusals;
mod reporting;
mod result;
mod text;

pub use analysing::{Analysed, analysis};
pub use chains::chains_of;
pub use reporting::report;
pub use result::Report;
