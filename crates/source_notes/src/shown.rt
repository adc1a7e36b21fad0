//! What is shown of a line, so that no text steers a terminal.

use crate::places::back;
use rsml_base::NoMemory;
use std::alloc::Global;

/// How many bytes the character takes that begins a text, where it is a control character or a mark of direction; else 0.
fn hidden_length(text: &[u8]) -> usize {
    match text {
        [b'\t', ..] | [b'\n', ..] => 0,
        [0..=31, ..] | [127, ..] => 1,
        // U+0080 to U+009F, and U+061C.
        [0xc2, 0x80..=0x9f, ..] | [0xd8, 0x9c, ..] => 2,
        // U+200E, U+200F, U+202A to U+202E, and U+2066 to U+2069.
        [0xe2, 0x80, 0x8e..=0x8f, ..] | [0xe2, 0x80, 0xaa..=0xae, ..] => 3,
        [0xe2, 0x81, 0xa6..=0xa9, ..] => 3,
        _ => 0,
    }
}

/// What is shown of a line: `?` in place of each control character but tabs and line feeds, of each mark of direction, and, where the
/// line is not UTF-8, of each byte that is not ASCII.
pub fn shown(alloc: Global, line: &[u8]) -> Result<Vec<u8>, NoMemory> {
    let is_text = str::from_utf8(line).is_ok();
    let mut bytes = Vec::new(alloc);
    let mut hidden: usize = 0;
    for (place, byte) in line.iter().enumerate() {
        if hidden == 0 {
            hidden = hidden_length(back(line, place));
            let is_shown = hidden == 0 && (is_text || *byte < 128);
            bytes.push(if is_shown { *byte } else { b'?' })?;
        }
        hidden = hidden.saturating_sub(1);
    }
    Ok(bytes)
}
