//! AND/OR tables over numbered phrases: when they are true, and the same asked as masks in lanes.
#![tactic(auto)]

mod counts;
mod fast;
mod ground;
mod lanes;
mod masks;
mod truths;

pub use fast::FastTable;
pub use ground::{GroundRow, GroundTable};
pub use masks::MaskTable;
pub use truths::Truths;
