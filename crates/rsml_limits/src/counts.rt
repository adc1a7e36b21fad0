//! Counts what the limits L1 to L6 of a specification are about.

mod counted;
mod counted_names;
mod declarations;
mod lowest;
mod rows;
mod states;

pub use lowest::lowest_count_over;
