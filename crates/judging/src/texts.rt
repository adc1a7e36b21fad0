ghost use Rattle.std.specs.Prelude.{◌≤◌, length, IfOk};
ghost use Rattle.rsml_lexer.specs.declared.lexing.TheConstants.{GREATEST_TEXT};
ghost use Rattle.rsml_syntax.specs.text.Lexing.{bare};
ghost use Rattle.rsml_syntax.specs.text.Tokens.{AreTokens};
ghost use Rattle.rsml_syntax.specs.declared.edition.Edition.TheVariants as editions;
ghost use Rattle.judging.specs.Steps.{AreRead, AreShort, IsRead, IsReadByFirst};

use crate::fault_lines::{lexical_fault, parse_fault};
use rsml_lexer::{lex, lex_edition_1};
use rsml_parser::parse;
use rsml_syntax::{NoMemory, Placed, Spec, renamed};
use std::alloc::Global;

/// How many bytes of a specification's file are read.
pub const GREATEST_FILE: u64 = 1_048_576;

/// What a text reads as: a specification, or the line that tells its first fault.
#[derive(Drop)]
pub enum ReadText {
    Specification(Spec),
    Fault(Vec<u8>),
}

/// Reads tokens as a specification.
fn read_tokens(alloc: Global, tokens: &[Placed]) -> Result<ReadText, NoMemory>
    requires few { length tokens.now ≤ GREATEST_TEXT }
    requires fit { AreTokens editions.Second (bare tokens.now) }
    ensures read { IfOk result (AreRead (bare tokens.now)) }
    ensures short { IfOk result AreShort }
{
    match parse(alloc, tokens) {
        Ok(spec) => Ok(ReadText::Specification(spec)),
        Err(error) => Ok(ReadText::Fault(parse_fault(alloc, error)?)),
    }
}

/// Reads a text of the first edition, in which `previous` may be a name, as a specification in which that name is another.
pub fn read_first_edition(alloc: Global, text: &[u8]) -> Result<ReadText, NoMemory>
    requires { length text.now ≤ GREATEST_TEXT }
    ensures { IfOk result (IsReadByFirst text.now) }
{
    match lex_edition_1(alloc, text) {
        Ok(tokens) => {
            let tokens = renamed(alloc, tokens.as_slice())?;
            read_tokens(alloc, tokens.as_slice())
        }
        Err(error) => Ok(ReadText::Fault(lexical_fault(alloc, error)?)),
    }
}

/// Reads a text as a specification.
pub fn read_text(alloc: Global, text: &[u8]) -> Result<ReadText, NoMemory>
    requires { length text.now ≤ GREATEST_TEXT }
    ensures read { IfOk result (IsRead text.now) }
    ensures short { IfOk result AreShort }
{
    match lex(alloc, text) {
        Ok(tokens) => read_tokens(alloc, tokens.as_slice()),
        Err(error) => Ok(ReadText::Fault(lexical_fault(alloc, error)?)),
    }
}
