//! How often a run takes each transition and each case of a send, and makes each column of their tables true.
#![tactic(auto)]

mod counted_file;
mod counter;
mod counts;
mod covering;
mod laws;
mod listener;
mod rounds;
mod tally;
mod texts;

pub use counted_file::CountedFile;
pub use counts::Counts;
pub use covering::cover;
pub use laws::what_reacts_is_taken;
pub use listener::{Deaf, Listener};
pub use tally::Tally;
