//! Lines and columns of a text, from 1; columns are counted in characters.

use std::alloc::Global;

/// Whether a byte begins a character.
pub fn begins_character(byte: u8) -> bool {
    byte < 128 || 192 <= byte
}

/// What stands before an offset.
pub fn front(text: &[u8], at: usize) -> &[u8] {
    match text.get(..at) {
        Some(front) => front,
        None => text,
    }
}

/// What stands from an offset on.
pub fn back(text: &[u8], at: usize) -> &[u8] {
    match text.get(at..) {
        Some(back) => back,
        None => &[],
    }
}

/// The offset at which the line begins.
pub fn line_start(text: &[u8], at: usize) -> usize {
    let before = front(text, at);
    let mut start = before.len();
    for byte in before.iter().rev() {
        if *byte == b'\n' {
            break;
        }
        start = start.saturating_sub(1);
    }
    start
}

/// How many characters there are.
pub fn characters_in(bytes: &[u8]) -> usize {
    let mut count: usize = 0;
    for byte in bytes {
        if begins_character(*byte) {
            count = count.saturating_add(1);
        }
    }
    count
}

/// Where an offset lies: on which line, at which column of it, and the offset at which that line begins.
#[derive(Clone, Copy)]
pub struct Place {
    pub line: usize,
    pub column: usize,
    pub start: usize,
}

impl Place {
    /// The place of the first byte of a text.
    const FIRST: Place = Place {
        line: 1,
        column: 1,
        start: 0,
    };

    /// The place behind a byte at this offset.
    fn behind(self, at: usize, byte: u8) -> Place {
        let mut place = self;
        if byte == b'\n' {
            place.line = self.line.saturating_add(1);
            place.column = 1;
            place.start = at.saturating_add(1);
        } else if begins_character(byte) {
            place.column = self.column.saturating_add(1);
        }
        place
    }
}

/// How many bytes stand between two places that are kept.
const STEP: usize = 256;

/// The places of a text. One in so many bytes is kept, so that another is counted from the one before.
#[derive(Drop)]
pub struct Places<'t> {
    text: &'t [u8],
    kept: Vec<Place>,
}

impl<'t> Places<'t> {
    /// The places of a text. Where memory is refused, fewer are kept.
    pub fn new(alloc: Global, text: &'t [u8]) -> Places<'t> {
        let mut kept = Vec::new(alloc);
        let mut here = Place::FIRST;
        for (at, byte) in text.iter().enumerate() {
            if at % STEP == 0 && kept.push(here).is_err() {
                break;
            }
            here = here.behind(at, *byte);
        }
        Places { text, kept }
    }

    pub fn text(&self) -> &'t [u8] {
        self.text
    }

    /// The offset and the place that are kept of a number.
    fn kept_place(&self, number: usize) -> (usize, Place) {
        match self.kept.get(number) {
            Some(place) => (number.saturating_mul(STEP), *place),
            None => (0, Place::FIRST),
        }
    }

    /// Where an offset lies.
    pub fn place_of(&self, at: usize) -> Place {
        let last = self.kept.len().saturating_sub(1);
        let (from, mut here) = self.kept_place(last.min(at / STEP));
        let between = back(front(self.text, at), from);
        for (count, byte) in between.iter().enumerate() {
            here = here.behind(from.saturating_add(count), *byte);
        }
        here
    }
}

/// Sorts of bytes that follow one another.
#[derive(Clone, Copy)]
enum Class {
    InLine,
    Digit,
    InName,
    InsideCharacter,
}

fn is_of(class: Class, byte: u8) -> bool {
    match class {
        Class::InLine => byte != b'\n',
        Class::Digit => byte.is_ascii_digit(),
        Class::InName => byte.is_ascii_alphanumeric() || byte == b'_' || 128 <= byte,
        Class::InsideCharacter => !begins_character(byte),
    }
}

/// How many bytes of a class there are before the first of another.
fn length_of(class: Class, bytes: &[u8]) -> usize {
    let mut length: usize = 0;
    for byte in bytes {
        if !is_of(class, *byte) {
            break;
        }
        length = length.saturating_add(1);
    }
    length
}

/// How many bytes of a line are looked at before a place and behind it: more than are shown.
const NEAR: usize = 1024;

/// What is near a place on its line.
#[derive(Clone, Copy)]
pub struct Near<'t> {
    pub bytes: &'t [u8],
    /// The offset at which they begin.
    pub from: usize,
    /// How many characters of the line stand before them.
    pub skipped: usize,
}

/// Without a carriage return at the end.
fn without_return(line: &[u8]) -> &[u8] {
    match line.split_last() {
        Some((b'\r', rest)) => rest,
        _ => line,
    }
}

/// What stands near an offset, which lies at this place, on its line without the line's end.
pub fn part_near(text: &[u8], at: usize, place: Place) -> Near<'_> {
    let first = place.start.max(at.saturating_sub(NEAR));
    let mut from = first;
    if place.start < first {
        let inside = length_of(Class::InsideCharacter, back(front(text, at), first));
        from = first.saturating_add(inside);
    }
    let before = characters_in(back(front(text, at), from));
    let rest = back(front(text, at.saturating_add(NEAR)), from);
    Near {
        bytes: without_return(front(rest, length_of(Class::InLine, rest))),
        from,
        skipped: place.column.saturating_sub(before.saturating_add(1)),
    }
}

/// How many bytes the token takes that begins a text.
fn token_length(bytes: &[u8]) -> usize {
    let digits = length_of(Class::Digit, bytes);
    if digits > 0 {
        return digits;
    }
    let name = length_of(Class::InName, bytes);
    if name > 0 {
        return name;
    }
    match bytes {
        [b'.', b'.', ..] | [b'-', b'>', ..] => 2,
        [b'!', b'=', ..] | [b'<', b'=', ..] | [b'>', b'=', ..] => 2,
        [_, ..] => 1,
        [] => 0,
    }
}

/// The token that begins at an offset.
pub fn token_text(text: &[u8], at: usize) -> &[u8] {
    let rest = back(text, at);
    front(rest, token_length(rest))
}

/// How many bytes the character takes that begins a text.
pub fn character_length(bytes: &[u8]) -> usize {
    match bytes.split_first() {
        Some((_, rest)) => length_of(Class::InsideCharacter, rest).saturating_add(1),
        None => 0,
    }
}
