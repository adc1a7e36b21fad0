//! The numbered phrases of a specification: its tables, cases and sums, built over the numbers of states, cells,
//! macros and functions.
#![tactic(auto)]

mod built;
mod definitions;
mod guards;
mod here;
mod lookup;
mod phrases;
mod site;
mod sources;
mod sums;
mod tables;

pub use built::{Built, build};
pub use guards::{function_number, guard, sum};
pub use here::{Here, Variable};
pub use lookup::Lookup;
