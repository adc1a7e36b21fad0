//! The commands of the program: what its words ask for, and what comes of it.
#![tactic(auto)]

mod acting;
mod command;
mod counts;
mod laws;
mod memory;
mod running;
mod version;

pub use answering::Status;
pub use command::{Action, Command};
pub use demonstrating::demo;
pub use following::EventAction;
pub use judging::{Judgement, judge};
pub use laws::an_output_is_one;
pub use memory::memory_lines;
pub use pairing::PairAction;
pub use running::run;
