ghost use Rattle.std.specs.Prelude.{◌≡◌, IfOk};
ghost use Rattle.source_notes.specs.Comments.{AreComments};

use crate::characters::{kind_of, meant};
use crate::syntactic::spot_at;
use rsml_base::NoMemory;
use rsml_lexer::LexError;
use source_notes::{Notes, Piece, Spot, back, character_length, front};
use std::alloc::Global;
use std::str;

/// The digits of the hexadecimal numbers.
const DIGITS: [u8; 16] = *b"0123456789ABCDEF";

/// The hexadecimal digit of a number at a power of 16.
fn digit(number: u32, power: u32) -> u8 {
    let digit = number.checked_div(power).unwrap_or(0) % 16;
    match DIGITS.get(digit as usize) {
        Some(digit) => *digit,
        None => b'0',
    }
}

/// The hexadecimal digits of a code point.
fn digits_of(code: u32) -> [u8; 6] {
    [
        digit(code, 0x100000),
        digit(code, 0x10000),
        digit(code, 0x1000),
        digit(code, 0x100),
        digit(code, 0x10),
        digit(code, 1),
    ]
}

/// Digits from a place on, in words.
fn from_digit(digits: &[u8; 6], place: usize) -> Piece<'_> {
    Piece::Words(str::from_utf8(back(digits, place)).unwrap_or(""))
}

/// The place of the first digit of a code point that is written: four are at least.
fn first_digit(code: u32) -> usize {
    match code {
        0..=0xFFFF => 2,
        0x10000..=0xFFFFF => 1,
        _ => 0,
    }
}

/// Tells a byte that belongs to no character.
fn not_text(notes: &mut Notes<'_>, at: usize) {
    let byte = match back(notes.text(), at).first() {
        Some(byte) => u32::from(*byte),
        None => 0,
    };
    let digits = digits_of(byte);
    notes.fault_at_byte(at, "the byte `0x{}` is not UTF-8", from_digit(&digits, 4));
    notes.say("save the file as UTF-8");
}

/// The code point of a character.
fn code_point(character: &[u8]) -> Option<u32> {
    let character = str::from_utf8(character).ok()?.chars().next()?;
    Some(character as u32)
}

/// Tells what a character is that begins no token: what it is called, or how it looks.
fn tell_character(notes: &mut Notes<'_>, at: usize, character: &[u8], code: u32) {
    let spot = Spot { at, width: 1 };
    let digits = digits_of(code);
    let point = from_digit(&digits, first_digit(code));
    match kind_of(code) {
        Some(kind) => notes.fault(
            spot,
            "the character `U+{}`, {}, begins no token",
            point,
            Piece::Words(kind),
        ),
        None => notes.fault(
            spot,
            "the character {} (U+{}) begins no token",
            Piece::Code(character),
            point,
        ),
    }
}

/// Tells a character that begins no token.
fn bad_character(notes: &mut Notes<'_>, at: usize) {
    let text = notes.text();
    let rest = back(text, at);
    let character = front(rest, character_length(rest));
    let code = code_point(character).unwrap_or(0);
    tell_character(notes, at, character, code);
    if let Some(words) = meant(code, front(text, at), back(rest, 1)) {
        notes.say(words);
    }
}

/// Tells a number that is too big.
fn too_big(notes: &mut Notes<'_>, at: usize) {
    notes.fault(
        spot_at(notes.text(), at),
        "the number is too big; the greatest is 1,000,000,000",
        Piece::Nothing,
        Piece::Nothing,
    );
}

/// Tells where a text has no token.
fn tell_lexical(notes: &mut Notes<'_>, error: &LexError) -> Result<(), NoMemory> {
    match error {
        LexError::NotUtf8 { at } => not_text(notes, *at as usize),
        LexError::BadCharacter { at } => bad_character(notes, *at as usize),
        LexError::NumberTooBig { at } => too_big(notes, *at as usize),
        LexError::NoMemory => return Err(NoMemory),
    }
    Ok(())
}

/// Comment lines that tell where a text has no token, and why.
pub fn lexical_notes(
    alloc: Global,
    file: &[u8],
    text: &[u8],
    error: &LexError,
) -> Result<Vec<u8>, NoMemory>
    ensures { IfOk result (λ v. AreComments v.items) }
{
    let mut notes = Notes::new(alloc, file, text);
    tell_lexical(&mut notes, error)?;
    notes.bytes()
}
