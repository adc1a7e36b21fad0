//! What every crate stands on: lists, texts, pieces of text, and out of memory. Nothing of RSML.
#![tactic(auto)]

mod list;
mod no_memory;
mod pieces;
mod text;

pub use list::List;
pub use no_memory::NoMemory;
pub use pieces::{put, put_number};
pub use text::Text;
