ghost use Rattle.std.specs.Prelude.{◌≡◌};
ghost use Rattle.rsml_parser.specs.Declarations as spec;
ghost use Rattle.rsml_parser.specs.Parsers as parsers;
ghost use Rattle.rsml_parser.specs.Parsers.{Gives};
ghost use Rattle.rsml_syntax.specs.declared.token.Mark.TheVariants as marks;

use crate::list::{Item, Listed, in_parentheses};
use crate::mentions::mention;
use crate::reader::{Fault, Reader};
use crate::sums::sum;
use crate::tables::when_guard;
use rsml_syntax::{Answer, Case, Mark, SendCase, Value, Word};
use std::alloc::Global;

/// A case of a function.
fn case_of(alloc: Global, reader: &mut Reader<'_>) -> Result<Case, Fault>
    ensures { Gives (spec.case_of reader.old) result reader.new }
{
    let value = sum(alloc, reader)?;
    let guard = when_guard(alloc, reader)?;
    reader.mark(Mark::Semicolon)?;
    Ok(Case { value, guard })
}

impl Item for Case {
    ghost parser = { spec.case_of };

    fn read(alloc: Global, reader: &mut Reader<'_>) -> Result<Case, Fault> {
        case_of(alloc, reader)
    }
}

impl Listed for Case {
    ghost begins = { parsers.is_not marks.CloseBrace };

    fn begins(reader: &Reader<'_>) -> bool {
        reader.goes_on(Mark::CloseBrace)
    }
}

fn value(alloc: Global, reader: &mut Reader<'_>) -> Result<Value, Fault>
    ensures { Gives (spec.value reader.old) result reader.new }
{
    if reader.sees_word(Word::Function) {
        reader.word(Word::Function)?;
        let function = mention(alloc, reader)?;
        return Ok(Value::Function(function));
    }
    let sum = sum(alloc, reader)?;
    Ok(Value::Sum(sum))
}

impl Item for Value {
    ghost parser = { spec.value };

    fn read(alloc: Global, reader: &mut Reader<'_>) -> Result<Value, Fault> {
        value(alloc, reader)
    }
}

fn answer(alloc: Global, reader: &mut Reader<'_>) -> Result<Answer, Fault>
    ensures { Gives (spec.answer reader.old) result reader.new }
{
    if reader.sees_word(Word::Quiet) {
        reader.word(Word::Quiet)?;
        return Ok(Answer::Quiet);
    }
    let values = in_parentheses(alloc, reader)?;
    Ok(Answer::Values(values))
}

/// A case of a send.
fn send_case(alloc: Global, reader: &mut Reader<'_>) -> Result<SendCase, Fault>
    ensures { Gives (spec.send_case reader.old) result reader.new }
{
    reader.word(Word::On)?;
    let trigger = mention(alloc, reader)?;
    let guard = when_guard(alloc, reader)?;
    let answer = answer(alloc, reader)?;
    reader.mark(Mark::Semicolon)?;
    Ok(SendCase {
        trigger,
        guard,
        answer,
    })
}

impl Item for SendCase {
    ghost parser = { spec.send_case };

    fn read(alloc: Global, reader: &mut Reader<'_>) -> Result<SendCase, Fault> {
        send_case(alloc, reader)
    }
}

impl Listed for SendCase {
    ghost begins = { parsers.is_not marks.CloseBrace };

    fn begins(reader: &Reader<'_>) -> bool {
        reader.goes_on(Mark::CloseBrace)
    }
}
