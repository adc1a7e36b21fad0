//! Whether two machines of one frame behave alike: the first member that is not enabled in the same worlds in both, and a list of all
//! such members.
#![tactic(auto)]

mod difference;
mod found;
mod listing;
mod members;

pub use difference::first_difference;
pub use found::Found;
pub use listing::{Listed, differences};
