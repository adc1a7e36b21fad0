//! How many thresholds the comparisons of a specification have.

mod blocks;
mod cells;
mod compared;
mod edge;
mod function;
mod functions;
mod numbers;
mod ranges;
mod right;
mod table;
mod thresholds;

pub use thresholds::count_thresholds;
