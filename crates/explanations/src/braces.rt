//! Which braces are open.

use crate::hints::stands_outside;
use crate::site::Fault;
use crate::token_kind::TokenKind;
use rsml_syntax::{Mark, Placed};
use source_notes::{Notes, Piece};

/// How many of them are told.
const MOST: usize = 5;

/// The offset of the brace that tokens leave open, and in which so many others are open.
fn open_brace(tokens: &[Placed], others: usize) -> Option<u32> {
    // How many opening braces are left that are closed, or one of the others.
    let mut inside = others;
    for placed in tokens.iter().rev() {
        match TokenKind::of(&placed.token) {
            TokenKind::Mark(Mark::CloseBrace) => inside = inside.saturating_add(1),
            TokenKind::Mark(Mark::OpenBrace) if inside == 0 => return Some(placed.at),
            TokenKind::Mark(Mark::OpenBrace) => inside = inside.saturating_sub(1),
            _ => {}
        }
    }
    None
}

/// Tells the braces that tokens leave open, at most so many, the innermost first.
fn tell_open(notes: &mut Notes<'_>, tokens: &[Placed], most: usize) {
    for others in 0..most {
        match open_brace(tokens, others) {
            Some(at) => notes.say_one("the `{` at {} is open", Piece::Place(at)),
            None => return,
        }
    }
}

/// Tells the braces, where one of them is missing.
pub fn tell_braces(notes: &mut Notes<'_>, fault: &Fault<'_>) {
    let before = fault.site.tokens_before();
    match fault.site.kind(0) {
        None => tell_open(notes, before, MOST),
        Some(TokenKind::Mark(Mark::CloseBrace)) => {
            if open_brace(before, 0).is_none() {
                notes.say("no `{` is open here");
            }
        }
        Some(_) => {
            if stands_outside(fault) {
                tell_open(notes, before, 1);
            }
        }
    }
}
