//! What a person is told of how an event file covers a specification: comment lines behind what `cover` writes.
#![tactic(auto)]

mod columns;
mod covered;
mod faults;
mod noting;
mod parts;
mod seen;
mod subject;
mod telling;
mod watch;
mod written;

pub use noting::cover_notes;
pub use subject::{Source, Subject};
pub use watch::Watch;
