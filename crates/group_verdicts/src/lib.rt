//! What is found of the groups of a machine: the worlds in which a group fails, and the least of them.
#![tactic(auto)]

mod blocks;
mod cells;
mod choices;
mod counted;
mod counts;
mod failing;
mod found;
mod kept;
mod least;
mod passing;
mod reading;

pub use counts::Counts;
pub use failing::{none_enabled, two_enabled};
pub use found::{refused_group, verdicts, verdicts_by};
pub use least::least_world;
pub use reading::{cell_number, is_read};
