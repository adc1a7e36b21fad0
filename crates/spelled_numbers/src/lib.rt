//! How numbers of parts are spelled in levels, and whether a weighted sum of levels is at most, at
//! least or equal to a number.
#![tactic(auto)]

mod bits;
mod build;
mod comparison;
mod digits;
mod kept;
mod laws;
mod rooms;
mod slot;
mod step;
mod sum_table;
mod weighted;
mod weights;

pub use bits::bits_of;
pub use comparison::Comparison;
pub use digits::digit;
pub use laws::{spelling_laws, sum_laws};
pub use slot::Slot;
pub use sum_table::SumTable;
pub use weighted::Weighted;
pub use weights::{plain, powers};
