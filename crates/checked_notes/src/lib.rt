//! Comment lines on a specification that keeps the rules and limits.
#![tactic(auto)]

mod asking;
mod chains;
mod columns;
mod enabled;
mod instances;
mod items;
mod noting;
mod telling;
mod verdicts;

pub use enabled::tell_enabled;
pub use noting::checked_notes;
