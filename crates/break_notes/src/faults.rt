//! What is told of a text of claims that is refused.
ghost use Rattle.std.specs.Prelude.{◌≤◌, length, IfOk};
ghost use Rattle.source_notes.specs.Comments.{AreComments};
ghost use Rattle.rsml_parser.specs.declared.specification.TheConstants.{MOST_TOKENS};
ghost use Rattle.rsml_syntax.specs.text.Lexing.{bare};
ghost use Rattle.rsml_syntax.specs.text.Tokens.{AreTokens};
ghost use Rattle.rsml_syntax.specs.declared.edition.Edition.TheVariants as editions;

use crate::joining::tell_joined;
use crate::noting::or_refused;
use claim_syntax::{Claim, first_other};
use explanations::{lexical_notes, syntax_notes};
use rsml_base::NoMemory;
use rsml_lexer::{GREATEST_TEXT, lex};
use rsml_parser::{ClaimsError, ParseError, parse_claims};
use rsml_syntax::{Mark, Phrase, Placed, Simple, Token, Word};
use source_notes::{Notes, Piece, Spot, characters_in, token_text};
use std::alloc::Global;

/// A text, the name of its file, and its tokens.
#[derive(Clone, Copy)]
struct Refused<'t> {
    file: &'t [u8],
    text: &'t [u8],
    tokens: &'t [Placed],
}

/// Whether a token is this mark.
fn is_mark(placed: &Placed, mark: Mark) -> bool {
    match placed.token {
        Token::Mark(found) => found == mark,
        _ => false,
    }
}

/// Tells an error at the token that begins at an offset.
fn tell_at(notes: &mut Notes<'_>, at: usize, form: &str, name: Piece<'_>, words: &str) {
    let width = characters_in(token_text(notes.text(), at));
    notes.fault(Spot { at, width }, form, name, Piece::Nothing);
    notes.say(words);
}

/// The offset at which a claim is to begin, if that is where the token of a number cannot stand: it is the first one, or behind a brace.
fn wanted_at(tokens: &[Placed], token: u32) -> Option<usize> {
    let place = (token as usize).saturating_sub(1);
    let placed = tokens.get(place)?;
    if place > 0 && !is_mark(tokens.get(place.saturating_sub(1))?, Mark::CloseBrace) {
        return None;
    }
    Some(placed.at as usize)
}

/// The offset of the bracket of a size behind the name of a claim, if that is the token of a number.
fn size_at(tokens: &[Placed], token: u32) -> Option<usize> {
    let place = (token as usize).saturating_sub(1);
    let placed = tokens.get(place)?;
    let first = tokens.get(place.saturating_sub(2))?;
    if is_mark(placed, Mark::OpenBracket) && matches!(first.token, Token::Word(Word::Macro)) {
        return Some(placed.at as usize);
    }
    None
}

/// What was expected at a token at which a text stops being claims, where specifications have something else there: its offset, and words.
fn expected_at(tokens: &[Placed], token: u32) -> Option<(usize, &'static str, &'static str)> {
    if let Some(at) = size_at(tokens, token) {
        return Some((at, "expected `{`", "a claim has no size"));
    }
    let at = wanted_at(tokens, token)?;
    Some((
        at,
        "expected `macro`",
        "a claim is written `macro NAME { in PATH | T; }`, with as many rows and columns as it takes",
    ))
}

/// Comment lines on the token at which a text stops being claims.
fn stop_notes(alloc: Global, refused: Refused<'_>, token: u32) -> Result<Vec<u8>, NoMemory>
    ensures { IfOk result (λ v. AreComments v.items) }
{
    let Refused { file, text, tokens } = refused;
    match expected_at(tokens, token) {
        Some((at, form, words)) => {
            let mut notes = Notes::new(alloc, file, text);
            tell_at(&mut notes, at, form, Piece::Nothing, words);
            notes.bytes()
        }
        None => syntax_notes(alloc, file, text, tokens, &ParseError::Syntax { token }),
    }
}

/// Whether a phrase asks whether a state is active.
fn asks_a_state(phrase: &Phrase) -> bool {
    match phrase {
        Phrase::Plain(body) | Phrase::Any { body, .. } | Phrase::Every { body, .. } => {
            matches!(body, Simple::In(_))
        }
    }
}

/// The offset of the row at a place of the claim whose name stands at an offset.
fn row_start(tokens: &[Placed], name: u32, place: usize) -> usize {
    let mut marks = place.saturating_add(1);
    for placed in tokens {
        if name < placed.at {
            if marks == 0 {
                return placed.at as usize;
            }
            if is_mark(placed, Mark::OpenBrace) || is_mark(placed, Mark::Semicolon) {
                marks = marks.saturating_sub(1);
            }
        }
    }
    name as usize
}

/// Tells the phrases of a claim that ask for more than states.
fn tell_other(notes: &mut Notes<'_>, tokens: &[Placed], claim: &Claim) {
    for (place, row) in claim.rows.as_slice().iter().enumerate() {
        if !asks_a_state(&row.phrase) {
            tell_at(
                notes,
                row_start(tokens, claim.name.at(), place),
                "this phrase of {} asks for no state",
                Piece::Name(&claim.name),
                "a phrase of a claim is `in PATH`, or it behind `some NAME of BOUND :` or `every NAME of BOUND :`",
            );
        }
    }
}

/// Tells what is wrong with claims of these tokens.
fn tell_claims(
    notes: &mut Notes<'_>,
    tokens: &[Placed],
    file: &[u8],
    text: &[u8],
    claims: Vec<Claim>,
) -> Result<(), NoMemory> {
    if let Some(claim) = first_other(claims.as_slice()) {
        tell_other(notes, tokens, claim);
        return Ok(());
    }
    tell_joined(notes, file, text, claims)
}

/// Comment lines on tokens.
fn token_notes(
    alloc: Global,
    file: &[u8],
    text: &[u8],
    refused: Refused<'_>,
) -> Result<Vec<u8>, NoMemory>
    requires few { length refused.tokens.now ≤ MOST_TOKENS }
    requires fit { AreTokens editions.Second (bare refused.tokens.now) }
    ensures { IfOk result (λ v. AreComments v.items) }
{
    match parse_claims(alloc, refused.tokens) {
        Ok(claims) => {
            let mut notes = Notes::new(alloc, refused.file, refused.text);
            tell_claims(&mut notes, refused.tokens, file, text, claims)?;
            notes.bytes()
        }
        Err(ClaimsError::Syntax { token }) => stop_notes(alloc, refused, token),
        Err(ClaimsError::NoMemory) => Err(NoMemory),
    }
}

/// Comment lines on a text of claims, where there is memory for them.
fn fault_notes(
    alloc: Global,
    file: &[u8],
    text: &[u8],
    claims_file: &[u8],
    claims_text: &[u8],
) -> Result<Vec<u8>, NoMemory>
    ensures { IfOk result (λ v. AreComments v.items) }
{
    if claims_text.len() > GREATEST_TEXT {
        let mut notes = Notes::new(alloc, claims_file, b"");
        notes.say("the claims are longer than 1,048,576 bytes");
        return notes.bytes();
    }
    match lex(alloc, claims_text) {
        Ok(tokens) => {
            let refused = Refused {
                file: claims_file,
                text: claims_text,
                tokens: tokens.as_slice(),
            };
            token_notes(alloc, file, text, refused)
        }
        Err(error) => lexical_notes(alloc, claims_file, claims_text, &error),
    }
}

/// Comment lines on a text of claims that can't be read, that breaks C1, or with which the specification of the first text breaks a rule
/// or a limit; or a line that says that there is too little memory for them. The only error is out of memory.
pub fn claims_fault_notes(
    alloc: Global,
    file: &[u8],
    text: &[u8],
    claims_file: &[u8],
    claims_text: &[u8],
) -> Result<Vec<u8>, NoMemory>
    ensures { IfOk result (λ v. AreComments v.items) }
{
    or_refused(
        alloc,
        fault_notes(alloc, file, text, claims_file, claims_text),
    )
}
