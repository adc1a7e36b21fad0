//! Trials with the parser: what happens where other tokens stand at a place.
ghost use Rattle.std.specs.Prelude.{◌≤◌, length};
ghost use Rattle.rsml_parser.specs.declared.specification.TheConstants.{MOST_TOKENS};
ghost use Rattle.rsml_syntax.specs.text.Lexing.{bare};
ghost use Rattle.rsml_syntax.specs.text.Tokens.{AreTokens};
ghost use Rattle.rsml_syntax.specs.declared.edition.Edition.TheVariants as editions;

use crate::site::Frame;
use crate::token_kind::TokenKind;
use rsml_base::NoMemory;
use rsml_lexer::{GREATEST_TEXT, LexError, lex};
use rsml_parser::{ParseError, parse};
use rsml_syntax::{MARKS, Placed, WORDS};
use std::alloc::Global;
use text_writer::{Draft, Writer};

/// Whether tokens have no fault up to the token with this number.
fn read_past(alloc: Global, tokens: &[Placed], token: usize) -> Result<bool, NoMemory>
    requires few { length tokens.now ≤ MOST_TOKENS }
    requires fit { AreTokens editions.Second (bare tokens.now) }
{
    match parse(alloc, tokens) {
        Ok(_) => Ok(true),
        Err(ParseError::Syntax { token: fault } | ParseError::TooDeep { token: fault }) => Ok(
            token < fault as usize,
        ),
        Err(ParseError::NoMemory) => Err(NoMemory),
    }
}

/// Whether a text has no fault up to the token with this number.
fn text_reads_past(alloc: Global, text: &[u8], token: usize) -> Result<bool, NoMemory> {
    if text.len() > GREATEST_TEXT {
        return Ok(false);
    }
    match lex(alloc, text) {
        Ok(tokens) => read_past(alloc, tokens.as_slice(), token),
        Err(LexError::NoMemory) => Err(NoMemory),
        Err(_) => Ok(false),
    }
}

/// The text of a frame, then what is tried on a line of its own, and then the rest.
fn trial_text(
    alloc: Global,
    frame: &Frame<'_>,
    tried: &[u8],
    rest: &[u8],
) -> Result<Vec<u8>, NoMemory> {
    let mut text = Draft::new(alloc);
    text.put(frame.head);
    text.put(frame.front);
    text.put(b"\n");
    text.put(tried);
    text.put(b"\n");
    text.put(rest);
    text.finish()
}

/// Whether a frame, with what is tried and the rest behind it, has no fault up to the token so many behind the one that is tried.
pub fn reads_past(
    alloc: Global,
    frame: &Frame<'_>,
    tried: &[u8],
    rest: &[u8],
    further: usize,
) -> Result<bool, NoMemory> {
    let text = trial_text(alloc, frame, tried, rest)?;
    text_reads_past(alloc, text.as_slice(), frame.token.saturating_add(further))
}

/// Puts a kind of tokens behind others, where it can stand behind a frame.
fn put_expected(
    kinds: &mut Vec<TokenKind>,
    alloc: Global,
    frame: &Frame<'_>,
    kind: TokenKind,
) -> Result<(), NoMemory> {
    if reads_past(alloc, frame, kind.example(), b"", 0)? {
        kinds.push(kind)?;
    }
    Ok(())
}

/// Puts all kinds of tokens that can stand behind a frame.
fn put_all_expected(
    kinds: &mut Vec<TokenKind>,
    alloc: Global,
    frame: &Frame<'_>,
) -> Result<(), NoMemory> {
    put_expected(kinds, alloc, frame, TokenKind::Name)?;
    put_expected(kinds, alloc, frame, TokenKind::Number)?;
    for mark in &MARKS {
        put_expected(kinds, alloc, frame, TokenKind::Mark(*mark))?;
    }
    for word in &WORDS {
        put_expected(kinds, alloc, frame, TokenKind::Word(*word))?;
    }
    Ok(())
}

/// The kinds of tokens that can stand behind a frame.
pub fn expected(alloc: Global, frame: &Frame<'_>) -> Result<Vec<TokenKind>, NoMemory> {
    let mut kinds = Vec::new(alloc);
    put_all_expected(&mut kinds, alloc, frame)?;
    Ok(kinds)
}
