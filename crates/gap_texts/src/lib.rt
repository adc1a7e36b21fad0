//! How the columns of worlds in which groups fail are written.
#![tactic(auto)]

mod choices;
mod columns;
mod gap_groups;
mod spans;
mod text;

pub use text::{gap_text, unsound};
