//! What is said of two specifications that behave alike.
ghost use Rattle.std.specs.Prelude.{IfOk};
ghost use Rattle.source_notes.specs.Comments.{AreComments};

use crate::side::Side;
use rsml_base::NoMemory;
use source_notes::Notes;
use std::alloc::Global;
use text_writer::{Draft, Writer, put_number};

/// The polynomial of the checksum of POSIX `cksum`.
const POLYNOMIAL: u32 = 0x04C1_1DB7;

/// A checksum with one byte more.
fn summed(sum: u32, byte: u8) -> u32 {
    let mut sum = sum ^ (u32::from(byte) << 24);
    for _ in 0..8 {
        let odd = sum >> 31 == 1;
        sum <<= 1;
        if odd {
            sum ^= POLYNOMIAL;
        }
    }
    sum
}

/// The checksum of a text, as `cksum` gives it: of its bytes, and of its length from the lowest byte on.
fn checksum(text: &[u8]) -> u32 {
    let mut sum = 0;
    for byte in text {
        sum = summed(sum, *byte);
    }
    let mut length = text.len() as u64;
    for byte in &length.to_le_bytes() {
        if length > 0 {
            sum = summed(sum, *byte);
        }
        length >>= 8;
    }
    !sum
}

/// Puts the name of a file, and what `cksum` tells of it.
fn put_file(line: &mut Draft, side: Side<'_>) {
    line.put(side.file);
    line.put(b" (cksum ");
    put_number(line, u64::from(checksum(side.text)));
    line.put(b", ");
    put_number(line, side.text.len() as u64);
    line.put(b" bytes)");
}

/// One sentence for a record of changes: that two specifications behave alike. The only error is out of memory.
pub fn same_notes(alloc: Global, one: Side<'_>, two: Side<'_>) -> Result<Vec<u8>, NoMemory>
    ensures { IfOk result (λ v. AreComments v.items) }
{
    let mut notes = Notes::new(alloc, one.file, one.text);
    let mut line = notes.line("");
    put_file(&mut line, one);
    line.put(b" and ");
    put_file(&mut line, two);
    line.put(b" behave alike: with every event file both write the same trace");
    notes.keep(line);
    notes.bytes()
}
