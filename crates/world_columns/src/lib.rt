//! Columns of worlds, and the columns of a set of worlds: definitions and their laws.
#![tactic(auto)]

mod column;
mod group;
mod laws;

pub use column::{Column, Gaps, Span};
pub use group::GroupGaps;
pub use laws::{column_laws, passing_laws};
