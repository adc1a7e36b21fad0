//! Cuts an event file into its lines, whole or as it is read.
#![tactic(auto)]

mod cutting;
mod front;
mod limits;
mod line_buffer;
mod line_reader;
mod next;
mod piece;
mod skipping;
mod trimming;

pub use cutting::cut;
pub use limits::Limits;
pub use line_reader::LineReader;
pub use next::Next;
pub use piece::Piece;
pub use skipping::skipped;
