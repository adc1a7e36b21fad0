//! How a command ends, and how it writes what it came to, for any command.
#![tactic(auto)]

mod finishing;
mod outcome;
mod reading;
mod status;

pub use finishing::{answer, finish};
pub use outcome::Outcome;
pub use reading::{GREATEST_FILE, unread};
pub use status::Status;
