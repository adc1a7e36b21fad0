//! Writing a text piece by piece, into memory or to a sink behind a buffer: after the first refusal nothing more is
//! written.
#![tactic(auto)]

mod buffer;
mod buffered;
mod draft;
mod flushing;
mod laws;
mod pieces;
mod writer;

pub use buffer::Buffer;
pub use buffered::BufferedSink;
pub use draft::Draft;
pub use laws::{pieces_are_one_writing, writing_nothing_changes_nothing};
pub use pieces::{put_line_end, put_number, put_signed};
pub use writer::Writer;
