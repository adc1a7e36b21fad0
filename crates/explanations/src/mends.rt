//! What mends a fault: another name, a token more, or one less.

use crate::hints::too_many;
use crate::site::{Fault, end_of};
use crate::token_kind::TokenKind;
use crate::trials::reads_past;
use rsml_base::NoMemory;
use rsml_syntax::{Mark, Placed};
use source_notes::{Notes, Piece, back, token_text};

/// Whether the text goes on, up to the token so many further, where this stands before what is left from an offset on.
fn goes_on(fault: &Fault<'_>, tried: &[u8], left: usize, further: usize) -> Result<bool, NoMemory> {
    let rest = back(fault.site.text, left);
    reads_past(fault.alloc, &fault.frame, tried, rest, further)
}

/// Tells that a word is reserved, where a name in its place mends the fault; whether it is told.
fn tell_reserved(
    notes: &mut Notes<'_>,
    fault: &Fault<'_>,
    placed: &Placed,
) -> Result<bool, NoMemory> {
    let TokenKind::Word(word) = TokenKind::of(&placed.token) else {
        return Ok(false);
    };
    let behind = end_of(fault.site.text, placed);
    if !goes_on(fault, TokenKind::Name.example(), behind, 1)? {
        return Ok(false);
    }
    notes.say_one(
        "{} is reserved: choose another name",
        Piece::Code(word.spelling()),
    );
    Ok(true)
}

/// How far the text has to go on where a token of a kind is missing before one of another; none where it is no word or mark, a sign of a
/// sum, or a bar before a semicolon, which would end a row without cells.
fn needed(kind: TokenKind, next: TokenKind) -> Option<usize> {
    match (kind, next) {
        (TokenKind::Name | TokenKind::Number, _) => None,
        (TokenKind::Mark(Mark::Minus | Mark::Plus), _) => None,
        (TokenKind::Mark(Mark::Bar), TokenKind::Mark(Mark::Semicolon)) => None,
        // A word goes on by itself; a name or a mark may by chance.
        (TokenKind::Mark(Mark::Semicolon), TokenKind::Word(_)) => Some(1),
        _ => Some(2),
    }
}

/// Whether a token of a kind is missing before another one.
fn is_missing(fault: &Fault<'_>, kind: TokenKind, placed: &Placed) -> Result<bool, NoMemory> {
    match needed(kind, TokenKind::of(&placed.token)) {
        Some(further) => goes_on(fault, kind.example(), placed.at as usize, further),
        None => Ok(false),
    }
}

/// The word or mark that is missing before a token, if one is: the semicolon where it is.
fn missing(fault: &Fault<'_>, placed: &Placed) -> Result<Option<TokenKind>, NoMemory> {
    let semicolon = TokenKind::Mark(Mark::Semicolon);
    if is_missing(fault, semicolon, placed)? {
        return Ok(Some(semicolon));
    }
    for kind in fault.kinds {
        if is_missing(fault, *kind, placed)? {
            return Ok(Some(*kind));
        }
    }
    Ok(None)
}

/// Tells the word or mark that is missing before a token; whether it is told.
fn tell_missing(
    notes: &mut Notes<'_>,
    fault: &Fault<'_>,
    placed: &Placed,
) -> Result<bool, NoMemory> {
    let Some(before) = fault.site.near(-1) else {
        return Ok(false);
    };
    let Some(kind) = missing(fault, placed)? else {
        return Ok(false);
    };
    notes.say_four(
        "perhaps {} is missing behind {} at {}",
        Piece::Code(kind.example()),
        Piece::Code(token_text(fault.site.text, before.at as usize)),
        Piece::Place(before.at),
        Piece::Nothing,
    );
    Ok(true)
}

/// Tells that a token is one too many; whether it is told.
fn tell_too_many(
    notes: &mut Notes<'_>,
    fault: &Fault<'_>,
    placed: &Placed,
) -> Result<bool, NoMemory> {
    let Some(words) = too_many(fault) else {
        return Ok(false);
    };
    let behind = end_of(fault.site.text, placed);
    if !goes_on(fault, b"", behind, 0)? {
        return Ok(false);
    }
    notes.say(words);
    Ok(true)
}

/// Tells what mends the fault; whether something is told.
pub fn tell_mended(notes: &mut Notes<'_>, fault: &Fault<'_>) -> Result<bool, NoMemory> {
    let Some(placed) = fault.site.near(0) else {
        return Ok(false);
    };
    if tell_reserved(notes, fault, placed)? || tell_missing(notes, fault, placed)? {
        return Ok(true);
    }
    tell_too_many(notes, fault, placed)
}
