//! What is told below a syntax fault: a word that is meant, what mends the fault, a hint, and braces that are open.

use crate::braces::tell_braces;
use crate::hints::{hint_of, other_word};
use crate::mends::tell_mended;
use crate::site::Fault;
use crate::token_kind::{TokenKind, has_kind};
use rsml_base::NoMemory;
use rsml_syntax::Word;
use rule_faults::tell_letters;
use source_notes::{Notes, Piece, front};

/// Whether a name is a reserved word but for capitals, or the beginning of one.
fn is_short_for(name: &[u8], word: Word) -> bool {
    let spelling = word.spelling();
    let is_long = name.len() > 2 || name.len() == spelling.len();
    is_long && front(spelling, name.len()).eq_ignore_ascii_case(name)
}

/// The reserved word that is meant by the name at the place.
fn meant_word(fault: &Fault<'_>) -> Option<Word> {
    let name = fault.site.name(0);
    if has_kind(fault.kinds, TokenKind::Word(Word::T)) {
        return None;
    }
    for kind in fault.kinds {
        if let TokenKind::Word(word) = kind {
            if is_short_for(name, *word) {
                return Some(*word);
            }
        }
    }
    None
}

/// Tells a hint, if there is one; whether there is.
fn tell_hint(notes: &mut Notes<'_>, hint: Option<&'static str>) -> bool {
    match hint {
        Some(words) => {
            notes.say(words);
            true
        }
        None => false,
    }
}

/// Tells what is meant by the word at the place, where it is one of another notation; whether it is told.
fn tell_meant(notes: &mut Notes<'_>, fault: &Fault<'_>) -> bool {
    match meant_word(fault) {
        Some(word) => {
            notes.say_one("did you mean {}?", Piece::Code(word.spelling()));
            true
        }
        None => tell_hint(notes, other_word(fault)),
    }
}

/// Tells what mends the fault, or a hint.
pub fn tell_habits(notes: &mut Notes<'_>, fault: &Fault<'_>) -> Result<(), NoMemory> {
    let is_told = tell_letters(notes, fault.site.name(0)) || tell_meant(notes, fault);
    if !is_told && !tell_mended(notes, fault)? {
        tell_hint(notes, hint_of(fault));
    }
    tell_braces(notes, fault);
    Ok(())
}
