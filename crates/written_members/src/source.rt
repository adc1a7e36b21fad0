//! The text of a specification.

use source_notes::{Places, front, put_place};
use std::alloc::Global;
use text_writer::{Draft, Writer};

/// A text, and the name of its file.
#[derive(Drop)]
pub struct Source<'t> {
    file: &'t [u8],
    places: Places<'t>,
}

/// Whether a byte stands in names.
fn is_in_name(byte: u8) -> bool {
    byte.is_ascii_alphanumeric() || byte == b'_' || 128 <= byte
}

/// The offset of the word before an offset, where it stands on the same line; else the offset itself.
pub fn word_before(text: &[u8], at: usize) -> usize {
    let before = front(text, at);
    let mut place = before.len();
    let mut inside = false;
    for byte in before.iter().rev() {
        let in_name = is_in_name(*byte);
        if inside && !in_name || *byte == b'\n' {
            break;
        }
        inside = in_name;
        place = place.saturating_sub(1);
    }
    if inside { place } else { at }
}

impl<'t> Source<'t> {
    pub fn new(alloc: Global, file: &'t [u8], text: &'t [u8]) -> Source<'t> {
        let places = Places::new(alloc, text);
        Source { file, places }
    }

    pub fn text(&self) -> &'t [u8] {
        self.places.text()
    }

    /// Puts `LINE:COLUMN` of an offset.
    pub fn put_position(&self, line: &mut Draft, at: usize) {
        put_place(line, &self.places, at);
    }

    /// Puts `FILE:LINE:COLUMN: ` of an offset.
    pub fn put_place(&self, line: &mut Draft, at: usize) {
        line.put(self.file);
        line.put(b":");
        put_place(line, &self.places, at);
        line.put(b": ");
    }
}
