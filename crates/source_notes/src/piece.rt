use crate::places::Places;
use rsml_base::Text;
use text_writer::{Draft, Writer, put_number, put_signed};

/// What fills a gap of a sentence.
#[derive(Clone, Copy)]
pub enum Piece<'a> {
    Nothing,
    Words(&'a str),
    /// A name, in backquotes.
    Name(&'a Text),
    /// What is written in a specification, in backquotes.
    Code(&'a [u8]),
    Count(usize),
    Number(i64),
    /// `LINE:COLUMN` of an offset.
    Place(u32),
}

/// Puts a text in backquotes.
pub fn put_code(line: &mut Draft, code: &[u8]) {
    line.put(b"`");
    line.put(code);
    line.put(b"`");
}

/// Puts `LINE:COLUMN` of an offset.
pub fn put_place(line: &mut Draft, places: &Places<'_>, at: usize) {
    let place = places.place_of(at);
    put_number(line, place.line as u64);
    line.put(b":");
    put_number(line, place.column as u64);
}

/// Puts a piece of a sentence on a text.
fn put_piece(line: &mut Draft, places: &Places<'_>, piece: Piece<'_>) {
    match piece {
        Piece::Nothing => {}
        Piece::Words(words) => line.put(words.as_bytes()),
        Piece::Name(name) => put_code(line, name.bytes()),
        Piece::Code(code) => put_code(line, code),
        Piece::Count(count) => put_number(line, count as u64),
        Piece::Number(number) => put_signed(line, number),
        Piece::Place(at) => put_place(line, places, at as usize),
    }
}

/// Puts the piece at a place of four.
fn put_gap(line: &mut Draft, places: &Places<'_>, place: usize, gaps: [Piece<'_>; 4]) {
    match gaps.get(place) {
        Some(piece) => put_piece(line, places, *piece),
        None => {}
    }
}

/// Puts a sentence on a text. Pieces fill its gaps, which are written `{}`, in their order.
pub fn put_form(line: &mut Draft, places: &Places<'_>, form: &str, gaps: [Piece<'_>; 4]) {
    let mut place: usize = 0;
    let mut opened = false;
    for byte in form.as_bytes() {
        if opened && *byte == b'}' {
            put_gap(line, places, place, gaps);
            place = place.saturating_add(1);
        } else if opened {
            line.put(b"{");
        }
        if !opened && *byte != b'{' || opened && *byte != b'}' {
            line.put(&[*byte]);
        }
        opened = !opened && *byte == b'{';
    }
}

/// What stands behind an item of a list: a comma, a word before the last, nothing behind that.
fn behind(place: usize, count: usize, last: &'static str) -> &'static str {
    match count.saturating_sub(place) {
        0 | 1 => "",
        2 => last,
        _ => ", ",
    }
}

/// Puts the name at a place of a list of so many, in backquotes, with what stands between it and the next.
pub fn put_item(line: &mut Draft, place: usize, count: usize, last: &'static str, name: &[u8]) {
    put_code(line, name);
    line.put(behind(place, count, last).as_bytes());
}
