//! Cells and phrases of tables, as they are drawn.

use crate::cell_at;
use crate::holdings::put_padded;
use and_or_tables::GroundRow;
use rsml_base::NoMemory;
use rsml_syntax::Cell;
use source_notes::{Notes, characters_in};
use text_writer::Writer;
use written_members::phrases;

/// How a cell is written.
pub fn letter(cell: Cell) -> &'static [u8] {
    match cell {
        Cell::T => b"T",
        Cell::F => b"F",
        Cell::Dot => b".",
    }
}

/// How wide the widest of texts is.
pub fn widest(texts: &[Vec<u8>]) -> usize {
    let mut width: usize = 0;
    for text in texts {
        width = width.max(characters_in(text.as_slice()));
    }
    width
}

/// The text at a place, empty where there is none.
pub fn text_at(texts: &[Vec<u8>], place: usize) -> &[u8] {
    match texts.get(place) {
        Some(text) => text.as_slice(),
        None => &[],
    }
}

/// Tells one column of a table that is the first behind an offset.
pub fn tell_column(
    notes: &mut Notes<'_>,
    text: &[u8],
    rows: &[GroundRow],
    from: usize,
    column: usize,
) -> Result<(), NoMemory> {
    let phrases = phrases(notes.alloc(), text, from)?;
    let width = widest(phrases.as_slice());
    for (place, row) in rows.iter().enumerate() {
        let mut line = notes.line("    ");
        put_padded(&mut line, text_at(phrases.as_slice(), place), width);
        line.put(b" | ");
        line.put(letter(cell_at(row, column)));
        notes.keep(line);
    }
    Ok(())
}
