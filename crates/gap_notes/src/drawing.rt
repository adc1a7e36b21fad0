//! The columns in which a group fails, drawn as rows of a table.

use crate::rows::Row;
use rsml_base::NoMemory;
use rsml_syntax::Cell;
use source_notes::Notes;
use table_notes::{letter, put_padded, widest};
use text_writer::{Draft, Writer};
use written_members::{Scene, phrases};

/// The cell at a place of a column.
fn cell_at(column: &[Row], place: usize) -> Cell {
    match column.get(place) {
        Some(row) => row.cell,
        None => Cell::Dot,
    }
}

/// Whether some column asks for the phrase of a row.
fn is_asked(columns: &[Vec<Row>], place: usize) -> bool {
    for column in columns {
        if cell_at(column.as_slice(), place) != Cell::Dot {
            return true;
        }
    }
    false
}

/// The phrases of rows as they are written; nothing for those for which no column asks.
fn texts_of(
    notes: &Notes<'_>,
    scene: &Scene<'_, '_>,
    rows: &[Row],
    columns: &[Vec<Row>],
) -> Result<Vec<Vec<u8>>, NoMemory> {
    let mut texts = Vec::new(notes.alloc());
    for (place, row) in rows.iter().enumerate() {
        let mut text = Draft::new(notes.alloc());
        let all = phrases(notes.alloc(), scene.source.text(), row.table)?;
        if let Some(phrase) = all.get(row.place)
            && is_asked(columns, place)
        {
            text.put(phrase.as_slice());
        }
        texts.push(text.finish()?)?;
    }
    Ok(texts)
}

/// Tells a row with its phrase, in this width.
fn tell_row(
    notes: &mut Notes<'_>,
    columns: &[Vec<Row>],
    place: usize,
    phrase: &[u8],
    width: usize,
) {
    let mut line = notes.line("    ");
    put_padded(&mut line, phrase, width);
    line.put(b" |");
    for column in columns {
        line.put(b" ");
        line.put(letter(cell_at(column.as_slice(), place)));
    }
    line.put(b";");
    notes.keep(line);
}

/// Tells columns of these rows: a row for each phrase for which one asks.
pub fn tell_rows(
    notes: &mut Notes<'_>,
    scene: &Scene<'_, '_>,
    rows: &[Row],
    columns: &[Vec<Row>],
) -> Result<(), NoMemory> {
    let texts = texts_of(notes, scene, rows, columns)?;
    let width = widest(texts.as_slice());
    notes.say(if width == 0 {
        "it is so always"
    } else {
        "it is so where this table is true"
    });
    for (place, text) in texts.iter().enumerate() {
        if !text.is_empty() {
            tell_row(notes, columns, place, text.as_slice(), width);
        }
    }
    Ok(())
}
