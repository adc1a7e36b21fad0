//! What a person is told of groups that are not sound: comment lines behind what `gaps` writes, with the columns in which a group fails
//! over the phrases of its own tables.
#![tactic(auto)]

mod columns;
mod drawing;
mod failing;
mod gaps;
mod heads;
mod mending;
mod noting;
mod rows;
mod telling;

pub use noting::{Subject, gap_notes};
