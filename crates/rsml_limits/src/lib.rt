//! The limits L1 to L7: what a specification counts, and the lowest limit that it exceeds.
#![tactic(auto)]

mod comparisons;
mod counts;
mod keys;
mod over;
mod places;
mod thresholds;

pub use over::{Over, lowest_over};
