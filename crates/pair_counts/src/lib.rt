//! How many pairs blocks of numbers have together, counted without writing the pairs down.
#![tactic(auto)]

mod bits;
mod blocks;
mod entries;
mod groups;
mod inverse;
mod outside;
mod pairs;
mod set;
mod sets;

pub use blocks::{Block, Range};
pub use entries::count_entries;
pub use pairs::count_pairs;
