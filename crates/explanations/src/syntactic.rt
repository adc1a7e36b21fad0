ghost use Rattle.std.specs.Prelude.{◌≡◌, IfOk};
ghost use Rattle.source_notes.specs.Comments.{AreComments};

use crate::expectations::expectation_of;
use crate::habits::tell_habits;
use crate::site::{Fault, Site, frame_of};
use crate::token_kind::TokenKind;
use crate::trials::expected;
use rsml_base::NoMemory;
use rsml_parser::ParseError;
use rsml_syntax::Placed;
use source_notes::{Notes, Piece, Spot, characters_in, token_text};
use std::alloc::Global;
use std::str;

/// Where the token stands that begins at an offset.
pub fn spot_at(text: &[u8], at: usize) -> Spot {
    Spot {
        at,
        width: characters_in(token_text(text, at)),
    }
}

/// What sort of token one of a kind is.
fn sort_of(kind: TokenKind) -> &'static str {
    match kind {
        TokenKind::Word(_) => "the reserved word ",
        TokenKind::Name => "the name ",
        TokenKind::Number => "the number ",
        TokenKind::Mark(_) => "",
    }
}

/// Tells that a token cannot stand where it does, or that none does, and what was expected.
fn tell_unexpected(notes: &mut Notes<'_>, site: &Site<'_>, expectation: &str) {
    let spot = spot_at(site.text, site.at());
    let expectation = Piece::Words(expectation);
    match site.kind(0) {
        Some(kind) => notes.fault_four(
            spot,
            "{}{} cannot stand here; {}",
            Piece::Words(sort_of(kind)),
            Piece::Code(token_text(site.text, spot.at)),
            expectation,
            Piece::Nothing,
        ),
        None => notes.fault(
            spot,
            "the text ends too soon; {}",
            expectation,
            Piece::Nothing,
        ),
    }
}

/// Tells what was expected at a place.
fn tell_expected(notes: &mut Notes<'_>, fault: &Fault<'_>) -> Result<(), NoMemory> {
    let expectation = expectation_of(fault.alloc, fault.kinds)?;
    let words = str::from_utf8(expectation.as_slice()).unwrap_or("");
    tell_unexpected(notes, &fault.site, words);
    Ok(())
}

/// Tells a syntax fault.
fn tell_fault(notes: &mut Notes<'_>, fault: &Fault<'_>) -> Result<(), NoMemory> {
    tell_expected(notes, fault)?;
    tell_habits(notes, fault)
}

/// Tells that a token cannot stand where it does.
fn wrong_token(notes: &mut Notes<'_>, site: Site<'_>) -> Result<(), NoMemory> {
    let alloc = notes.alloc();
    let frame = frame_of(&site);
    let kinds = expected(alloc, &frame)?;
    let fault = Fault {
        alloc,
        site,
        frame,
        kinds: kinds.as_slice(),
    };
    tell_fault(notes, &fault)
}

/// Tells a state inside 16 others.
fn too_deep(notes: &mut Notes<'_>, site: &Site<'_>) {
    notes.fault(
        spot_at(site.text, site.at()),
        "the state lies inside 16 others; 16 levels are the most, with the top state",
        Piece::Nothing,
        Piece::Nothing,
    );
}

/// The place of a token that is counted from 1.
fn site_of<'t>(text: &'t [u8], tokens: &'t [Placed], token: u32) -> Site<'t> {
    Site {
        text,
        tokens,
        place: (token as usize).saturating_sub(1),
    }
}

/// Tells where tokens stop being a specification.
fn tell_syntax(
    notes: &mut Notes<'_>,
    tokens: &[Placed],
    error: &ParseError,
) -> Result<(), NoMemory> {
    let text = notes.text();
    match error {
        ParseError::Syntax { token } => wrong_token(notes, site_of(text, tokens, *token)),
        ParseError::TooDeep { token } => {
            too_deep(notes, &site_of(text, tokens, *token));
            Ok(())
        }
        ParseError::NoMemory => Err(NoMemory),
    }
}

/// Comment lines that tell where tokens stop being a specification, and what could stand there.
pub fn syntax_notes(
    alloc: Global,
    file: &[u8],
    text: &[u8],
    tokens: &[Placed],
    error: &ParseError,
) -> Result<Vec<u8>, NoMemory>
    ensures { IfOk result (λ v. AreComments v.items) }
{
    let mut notes = Notes::new(alloc, file, text);
    tell_syntax(&mut notes, tokens, error)?;
    notes.bytes()
}
