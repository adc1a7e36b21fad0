//! Lists of names, and the name among them that is most like another.

use crate::letters::tell_letters;
use rsml_base::Text;
use source_notes::{Notes, Piece, put_item};
use text_writer::{Draft, Writer};

/// How many names of a list are told.
const MOST_NAMES: usize = 12;

/// Puts the name at a place of so many: "others" behind the most that are told.
pub fn put_name(line: &mut Draft, place: usize, count: usize, name: &Text) {
    if place < MOST_NAMES {
        let told = count.min(MOST_NAMES.saturating_add(1));
        put_item(line, place, told, " and ", name.bytes());
    } else if place == MOST_NAMES {
        line.put(b"others");
    }
}

fn put_names(line: &mut Draft, names: &[Text]) {
    for (place, name) in names.iter().enumerate() {
        put_name(line, place, names.len(), name);
    }
}

/// Tells names behind some words.
pub fn tell_list(notes: &mut Notes<'_>, words: &str, names: &[Text]) {
    if !names.is_empty() {
        let mut line = notes.line(words);
        put_names(&mut line, names);
        notes.keep(line);
    }
}

/// Tells which letter of a name only looks like a Latin one, and the name that is most like it; whether there is such a name.
pub fn tell_nearest(notes: &mut Notes<'_>, name: &Text, nearest: Option<&Text>) -> bool {
    tell_letters(notes, name.bytes());
    match nearest {
        Some(other) => {
            notes.say_one("did you mean {}?", Piece::Name(other));
            true
        }
        None => false,
    }
}
