//! Files that are read and sinks that are written: what they promise, in memory and of the system.
#![tactic(auto)]

mod failed;
mod files;
mod held;
mod memory_files;
mod memory_sink;
mod os;
mod read_error;
mod sink;
mod whole;

pub use failed::Failed;
pub use files::Files;
pub use memory_files::MemoryFiles;
pub use memory_sink::MemorySink;
pub use os::{OsFiles, OsSink};
pub use read_error::ReadError;
pub use sink::Sink;
pub use whole::{read_all, write_all};
