ghost use Rattle.std.specs.Prelude.{◌≡◌, ◌≤◌, ℕ, List, length, vec_len, IfOk};
ghost use Rattle.std.specs.Str.{chars};
ghost use Rattle.rsml_syntax.specs.declared.edition.Edition.TheVariants.{First, Second};
ghost use Rattle.rsml_syntax.specs.declared.token.Placed.{Placed};
ghost use Rattle.rsml_syntax.specs.text.Lexing.{Lexes, LexFault, Fault, bare};
ghost use Rattle.rsml_syntax.specs.text.Lexing as spec;
ghost use Rattle.rsml_syntax.specs.text.Tokens.{AreTokens};
ghost use Rattle.rsml_lexer.specs.declared.lexing.TheConstants.{GREATEST_TEXT};
ghost use Rattle.rsml_lexer.specs.Answers.{Reads, Lexed, Gives, Fails, Names};

use crate::blanks::after_blanks;
use crate::fault::LexError;
use crate::front::token_at;
use rsml_syntax::{Edition, Placed};
use std::alloc::Global;
use std::str;

/// How many bytes a text may have.
pub const GREATEST_TEXT: usize = 1_048_576;

/// The longest prefix that is UTF-8.
fn utf8_prefix(bytes: &[u8]) -> &str
    ensures { result.now ≡ spec.utf8_prefix bytes.now }
{
    match str::from_utf8(bytes) {
        Ok(text) => text,
        Err(error) => match str::from_utf8(&bytes[..error.valid_up_to()]) {
            Ok(text) => text,
            Err(_) => unreachable!(),
        },
    }
}

/// The tokens of a text.
fn tokens_of(alloc: Global, edition: Edition, text: &str) -> Result<Vec<Placed>, LexError>
    requires { length text.now ≤ GREATEST_TEXT }
    ensures { Reads edition (chars text.now) result }
{
    let mut found = Vec::new(alloc);
    let mut rest = after_blanks(text);
    while !rest.is_empty() {
        let at = (text.len() - rest.len()) as u32;
        match token_at(alloc, edition, rest, at) {
            Ok(taken) => {
                found.push(Placed {
                    token: taken.token,
                    at,
                })?;
                rest = after_blanks(&rest[taken.len..]);
            }
            Err(error) => return Err(error),
        }
    }
    Ok(found)
}

/// Reads a text by the words of an edition.
fn lex_as(alloc: Global, edition: Edition, text: &[u8]) -> Result<Vec<Placed>, LexError>
    requires { length text.now ≤ GREATEST_TEXT }
    ensures { Lexed edition text.now result }
{
    let prefix = utf8_prefix(text);
    match tokens_of(alloc, edition, prefix) {
        Ok(found) => {
            if prefix.len() < text.len() {
                return Err(LexError::NotUtf8 {
                    at: prefix.len() as u32,
                });
            }
            Ok(found)
        }
        Err(error) => Err(error),
    }
}

/// The tokens of a text, each with the offset in bytes at which it begins, or the text's first fault.
pub fn lex(alloc: Global, text: &[u8]) -> Result<Vec<Placed>, LexError>
    requires { length text.now ≤ GREATEST_TEXT }
    ensures ok { IfOk result (λ v. Lexes Second text.now v.items) }
    // Each fault is the first one of the text, at its offset.
    ensures fault { (f : Fault) → Names result f → LexFault Second text.now f }
    // A text that has a token list gives it, and one that has a fault gives that, unless memory runs out.
    ensures only_ok { (ts : List Placed) → Lexes Second text.now ts → Gives ts result }
    ensures only_fault { (f : Fault) → LexFault Second text.now f → Fails f result }
    ensures tokens { IfOk result (λ v. AreTokens Second (bare v.items)) }
    ensures few { IfOk result (λ v. vec_len v ≤ length text.now) }
{
    lex_as(alloc, Edition::Second, text)
}

/// `lex` for the first edition, in which `previous` is a name like any other.
pub fn lex_edition_1(alloc: Global, text: &[u8]) -> Result<Vec<Placed>, LexError>
    requires { length text.now ≤ GREATEST_TEXT }
    ensures ok { IfOk result (λ v. Lexes First text.now v.items) }
    ensures fault { (f : Fault) → Names result f → LexFault First text.now f }
    ensures only_ok { (ts : List Placed) → Lexes First text.now ts → Gives ts result }
    ensures only_fault { (f : Fault) → LexFault First text.now f → Fails f result }
    ensures tokens { IfOk result (λ v. AreTokens First (bare v.items)) }
    ensures few { IfOk result (λ v. vec_len v ≤ length text.now) }
{
    lex_as(alloc, Edition::First, text)
}
