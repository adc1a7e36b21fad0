ghost use Rattle.std.specs.Prelude.{◌≡◌, ◌++◌, decimal, IfOk};
ghost use Rattle.judging.specs.FaultLines as lines;
ghost use Rattle.judging.specs.Steps.{IsLexicalLine, IsParseLine, IsRuleLine};

use rsml_base::{put, put_number};
use rsml_lexer::LexError;
use rsml_parser::ParseError;
use rsml_rules::RuleError;
use rsml_syntax::NoMemory;
use std::alloc::Global;

/// `fault`, these words, and a number.
#[tactic(auto, using(std::proofs::lemmas::List::append_assoc))]
fn numbered(alloc: Global, words: &[u8], number: u32) -> Result<Vec<u8>, NoMemory>
    ensures { IfOk result (λ line. line.items ≡ lines.numbered words.now number) }
{
    let mut line = Vec::from_slice(alloc, b"fault ")?;
    put(&mut line, words)?;
    put_number(&mut line, u64::from(number))?;
    put(&mut line, b"\n")?;
    Ok(line)
}

/// The line on a text that has no token list.
pub fn lexical_fault(alloc: Global, error: LexError) -> Result<Vec<u8>, NoMemory>
    ensures { IfOk result (λ line. IsLexicalLine error line.items) }
{
    match error {
        LexError::NotUtf8 { at } => numbered(alloc, b"utf8 byte ", at),
        LexError::BadCharacter { at } => numbered(alloc, b"character byte ", at),
        LexError::NumberTooBig { at } => numbered(alloc, b"number byte ", at),
        LexError::NoMemory => Err(NoMemory),
    }
}

/// The line on tokens that are no specification.
pub fn parse_fault(alloc: Global, error: ParseError) -> Result<Vec<u8>, NoMemory>
    ensures { IfOk result (λ line. IsParseLine error line.items) }
{
    match error {
        ParseError::Syntax { token } => numbered(alloc, b"syntax token ", token),
        ParseError::TooDeep { token } => numbered(alloc, b"depth token ", token),
        ParseError::NoMemory => Err(NoMemory),
    }
}

/// `fault S`, the number of a rule, and the name at which it is broken.
#[tactic(auto, using(std::proofs::lemmas::List::append_assoc))]
fn rule_line(alloc: Global, number: u8, name: &[u8]) -> Result<Vec<u8>, NoMemory>
    ensures { IfOk result (λ line. line.items ≡ lines.rule (record { rule = number; shown = name.now })) }
{
    let mut line = Vec::from_slice(alloc, b"fault S")?;
    put_number(&mut line, u64::from(number))?;
    put(&mut line, b" ")?;
    put(&mut line, name)?;
    put(&mut line, b"\n")?;
    Ok(line)
}

/// `fault L`, the number of a limit, and the count.
#[tactic(auto, using(std::proofs::lemmas::List::append_assoc))]
fn limit_line(alloc: Global, number: u8, count: u64) -> Result<Vec<u8>, NoMemory>
    ensures { IfOk result (λ line. line.items ≡ lines.limit (number, count)) }
{
    let mut line = Vec::from_slice(alloc, b"fault L")?;
    put_number(&mut line, u64::from(number))?;
    put(&mut line, b" ")?;
    put_number(&mut line, count)?;
    put(&mut line, b"\n")?;
    Ok(line)
}

/// The line on a specification that breaks a rule or a limit.
pub fn rule_fault(alloc: Global, error: RuleError) -> Result<Vec<u8>, NoMemory>
    ensures { IfOk result (λ line. IsRuleLine error line.items) }
{
    match error {
        RuleError::Rule { number, name } => rule_line(alloc, number, name.bytes()),
        RuleError::Limit { number, count } => limit_line(alloc, number, count),
        RuleError::NoMemory => Err(NoMemory),
    }
}
