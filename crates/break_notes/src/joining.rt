//! Claims that are joined to a specification, and the rules that are broken then.

use claim_syntax::{Claim, joined};
use rsml_base::NoMemory;
use rsml_lexer::{GREATEST_TEXT, lex};
use rsml_parser::parse;
use rsml_rules::{Breach, first_breaches};
use rsml_syntax::Spec;
use rule_faults::tell_broken;
use source_notes::{Notes, Piece, spot_of};
use std::alloc::Global;
use text_writer::{Draft, Writer};

/// A text behind so many blanks.
fn behind_blanks(alloc: Global, blanks: usize, text: &[u8]) -> Result<Vec<u8>, NoMemory> {
    let mut draft = Draft::new(alloc);
    for _ in 0..blanks {
        draft.put(b" ");
    }
    draft.put(text);
    draft.finish()
}

/// The specification of a text that reads, its names behind all offsets of the claims: a name is found again by its offset. None where
/// both texts together are too long for that.
fn read_behind(alloc: Global, claims: &[u8], text: &[u8]) -> Result<Option<Spec>, NoMemory> {
    let text = behind_blanks(alloc, claims.len(), text)?;
    if text.len() > GREATEST_TEXT {
        return Ok(None);
    }
    match lex(alloc, text.as_slice()) {
        Ok(tokens) => match parse(alloc, tokens.as_slice()) {
            Ok(spec) => Ok(Some(spec)),
            Err(_) => Err(NoMemory),
        },
        Err(_) => Err(NoMemory),
    }
}

/// Tells a breach: in own words where others would tell places of the file of the specification as of this one.
fn tell_breach(
    notes: &mut Notes<'_>,
    file: &[u8],
    spec: &Spec,
    breach: &Breach,
) -> Result<(), NoMemory> {
    let name = &breach.name;
    let form = match breach.rule {
        1 => "{} is declared already, in {} or in a claim before",
        2 => "{} is not declared in {}; a bound or an index is a number or a constant",
        3 => "{} is no constant of {}; a bound or an index is a number or a constant",
        5 => "the bound of {} is not a number from 1 to 64",
        6 => "the index of {} is missing, not wanted or out of range",
        rule => return tell_broken(notes, spec, rule, name),
    };
    if (name.at() as usize) < notes.text().len() {
        notes.fault(spot_of(name), form, Piece::Name(name), Piece::Code(file));
    } else {
        notes.say_two(form, Piece::Name(name), Piece::Code(file));
    }
    Ok(())
}

/// Tells which rules the specification of a text and claims break together, or else that they exceed a limit.
pub fn tell_joined(
    notes: &mut Notes<'_>,
    file: &[u8],
    text: &[u8],
    claims: Vec<Claim>,
) -> Result<(), NoMemory> {
    let Some(spec) = read_behind(notes.alloc(), notes.text(), text)? else {
        notes.say("more is not told: the texts of both files are too long together");
        return Ok(());
    };
    let spec = joined(spec, claims)?;
    let breaches = first_breaches(notes.alloc(), &spec)?;
    for breach in &breaches {
        tell_breach(notes, file, &spec, breach)?;
    }
    if breaches.is_empty() {
        notes.say_one("{} is too large with these claims", Piece::Code(file));
        notes.say("at most 8,192 macros, functions and claims are checked, and 65,536 rows");
        notes.say("a row with a quantifier counts as its bound");
    }
    Ok(())
}
