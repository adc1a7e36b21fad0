//! What is found of the groups of a machine, for a person: comment lines with tables as they are in a world, and rows that
//! would mend them.
#![tactic(auto)]

mod diagrams;
mod drawing;
mod finding;
mod heads;
mod mending;
mod refused;
mod sharing;
mod shown;
mod soundness;
mod telling;
mod truths;

pub use diagrams::Added;
pub use refused::tell_refused;
pub use soundness::{Change, columns_stay, is_sound_with};
pub use telling::tell_findings;
