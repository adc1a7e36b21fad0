//! How many keys the linear comparisons of a specification have.

mod ask_blocks;
mod class;
mod counting;
mod order;
mod sum_lists;
mod sums;

pub use counting::count_keys;
