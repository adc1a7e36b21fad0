//! Counts the run of an event file: its events, rounds, takes and moves.
#![tactic(auto)]

mod counting;
mod counts;
mod events;
mod lines;
mod moves;
mod progress;
mod raising;
mod steps;

pub use counting::count_run;
pub use counts::Counts;
