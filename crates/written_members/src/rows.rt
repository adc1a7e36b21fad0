//! Tables and cases as they are written.

use rsml_base::NoMemory;
use source_notes::{back, front};
use std::alloc::Global;
use text_writer::{Draft, Writer};

/// What is looked for in a text.
#[derive(Clone, Copy)]
enum Sought {
    Mark(u8),
    Either(u8, u8),
    NoBlank,
}

/// Whether a byte is a blank.
fn is_blank(byte: u8) -> bool {
    byte == b' ' || byte == b'\t' || byte == b'\r' || byte == b'\n'
}

/// Whether a byte is what is looked for.
fn is_sought(sought: Sought, byte: u8) -> bool {
    match sought {
        Sought::Mark(mark) => byte == mark,
        Sought::Either(one, other) => byte == one || byte == other,
        Sought::NoBlank => !is_blank(byte),
    }
}

/// Whether a byte stands in a comment, by whether the byte before it does.
fn is_in_comment(before: bool, byte: u8) -> bool {
    byte == b'#' || before && byte != b'\n'
}

/// The offset of the first byte from an offset on that is looked for and stands in no comment.
fn find(text: &[u8], from: usize, sought: Sought) -> Option<usize> {
    let mut in_comment = false;
    for (place, byte) in back(text, from).iter().enumerate() {
        in_comment = is_in_comment(in_comment, *byte);
        if !in_comment && is_sought(sought, *byte) {
            return Some(from.saturating_add(place));
        }
    }
    None
}

/// The offset behind the first of this mark from an offset on.
fn behind(text: &[u8], from: usize, mark: u8) -> Option<usize> {
    let at = find(text, from, Sought::Mark(mark))?;
    Some(at.saturating_add(1))
}

/// Whether this byte stands at an offset.
fn is_at(text: &[u8], at: usize, byte: u8) -> bool {
    match text.get(at) {
        Some(there) => *there == byte,
        None => false,
    }
}

/// The offset behind the case that begins at an offset: behind a semicolon that does not stand in its table.
fn behind_case(text: &[u8], from: usize) -> Option<usize> {
    let at = find(text, from, Sought::Either(b'{', b';'))?;
    if is_at(text, at, b';') {
        return Some(at.saturating_add(1));
    }
    behind(text, behind(text, at, b'}')?, b';')
}

/// The offset of the case at a place of the function whose name stands at an offset.
pub fn case_start(text: &[u8], name: usize, place: u32) -> Option<usize> {
    let mut at = behind(text, name, b'{')?;
    for _ in 0..place {
        at = behind_case(text, at)?;
    }
    find(text, at, Sought::NoBlank)
}

/// The phrase of a row as it is written, and the offset behind the row.
#[derive(Clone, Copy)]
struct Row<'t> {
    phrase: &'t [u8],
    end: usize,
}

/// The row that begins at an offset. None at the end of the table.
fn row_at(text: &[u8], from: usize) -> Option<Row<'_>> {
    let bar = find(text, from, Sought::Either(b'|', b'}'))?;
    if is_at(text, bar, b'}') {
        return None;
    }
    Some(Row {
        phrase: back(front(text, bar), from),
        end: behind(text, bar, b';')?,
    })
}

/// Puts a part of a text on one line, without comments, with one blank for blanks that follow one another.
fn put_on_line(line: &mut Draft, part: &[u8]) {
    let mut in_comment = false;
    let mut begun = false;
    let mut blank = false;
    for byte in part {
        in_comment = is_in_comment(in_comment, *byte);
        if in_comment || is_blank(*byte) {
            blank = begun;
        } else {
            if blank {
                line.put(b" ");
            }
            line.put(&[*byte]);
            begun = true;
            blank = false;
        }
    }
}

/// A part of a text on one line.
fn on_line(alloc: Global, part: &[u8]) -> Result<Vec<u8>, NoMemory> {
    let mut line = Draft::new(alloc);
    put_on_line(&mut line, part);
    line.finish()
}

/// Adds the phrases of the rows of the first table from an offset on.
fn add_phrases(
    phrases: &mut Vec<Vec<u8>>,
    alloc: Global,
    text: &[u8],
    from: usize,
) -> Result<(), NoMemory> {
    let Some(mut at) = behind(text, from, b'{') else {
        return Ok(());
    };
    for _ in from..text.len() {
        let Some(row) = row_at(text, at) else {
            break;
        };
        phrases.push(on_line(alloc, row.phrase)?)?;
        at = row.end;
    }
    Ok(())
}

/// The phrases of the rows of the first table from an offset on, as they are written.
pub fn phrases(alloc: Global, text: &[u8], from: usize) -> Result<Vec<Vec<u8>>, NoMemory> {
    let mut phrases = Vec::new(alloc);
    add_phrases(&mut phrases, alloc, text, from)?;
    Ok(phrases)
}
