ghost use Rattle.std.specs.Prelude.{◌≡◌, ◌≤◌, length, IfOk};
ghost use Rattle.source_notes.specs.Comments.{AreComments};
ghost use Rattle.rsml_parser.specs.declared.specification.TheConstants.{MOST_TOKENS};
ghost use Rattle.rsml_syntax.specs.text.Lexing.{bare};
ghost use Rattle.rsml_syntax.specs.text.Tokens.{AreTokens};
ghost use Rattle.rsml_syntax.specs.grammar.WellFormed.{WellFormed};
ghost use Rattle.rsml_syntax.specs.declared.edition.Edition.TheVariants as editions;

use crate::lexical::lexical_notes;
use crate::ruling::rule_notes;
use crate::syntactic::syntax_notes;
use rsml_base::NoMemory;
use rsml_lexer::{GREATEST_TEXT, lex};
use rsml_parser::parse;
use rsml_rules::{RuleError, check_rules};
use rsml_syntax::{Placed, Spec};
use source_notes::Notes;
use std::alloc::Global;

/// No comment lines.
fn no_notes(alloc: Global, file: &[u8], text: &[u8]) -> Result<Vec<u8>, NoMemory>
    ensures { IfOk result (λ v. AreComments v.items) }
{
    Notes::new(alloc, file, text).bytes()
}

/// The rule or the limit that a specification breaks, if it breaks one.
fn broken_rule(alloc: Global, spec: Spec) -> Result<Option<RuleError>, NoMemory>
    requires { WellFormed spec }
{
    match check_rules(alloc, spec) {
        Ok(_) => Ok(None),
        Err(RuleError::NoMemory) => Err(NoMemory),
        Err(error) => Ok(Some(error)),
    }
}

/// The notes on a specification that was read from tokens, and is read from them again.
fn rules_broken(
    alloc: Global,
    file: &[u8],
    text: &[u8],
    tokens: &[Placed],
    spec: Spec,
) -> Result<Vec<u8>, NoMemory>
    requires few { length tokens.now ≤ MOST_TOKENS }
    requires fit { AreTokens editions.Second (bare tokens.now) }
    requires formed { WellFormed spec }
    ensures { IfOk result (λ v. AreComments v.items) }
{
    match broken_rule(alloc, spec)? {
        None => no_notes(alloc, file, text),
        Some(error) => match parse(alloc, tokens) {
            Ok(spec) => rule_notes(alloc, file, text, &spec, &error),
            Err(error) => syntax_notes(alloc, file, text, tokens, &error),
        },
    }
}

/// The notes on tokens.
fn token_notes(
    alloc: Global,
    file: &[u8],
    text: &[u8],
    tokens: &[Placed],
) -> Result<Vec<u8>, NoMemory>
    requires few { length tokens.now ≤ MOST_TOKENS }
    requires fit { AreTokens editions.Second (bare tokens.now) }
    ensures { IfOk result (λ v. AreComments v.items) }
{
    match parse(alloc, tokens) {
        Ok(spec) => rules_broken(alloc, file, text, tokens, spec),
        Err(error) => syntax_notes(alloc, file, text, tokens, &error),
    }
}

/// Comment lines that tell the first fault of a text in words; none where it has no fault, or is too long.
pub fn fault_notes(alloc: Global, file: &[u8], text: &[u8]) -> Result<Vec<u8>, NoMemory>
    ensures { IfOk result (λ v. AreComments v.items) }
{
    if text.len() > GREATEST_TEXT {
        return no_notes(alloc, file, text);
    }
    match lex(alloc, text) {
        Ok(tokens) => token_notes(alloc, file, text, tokens.as_slice()),
        Err(error) => lexical_notes(alloc, file, text, &error),
    }
}
