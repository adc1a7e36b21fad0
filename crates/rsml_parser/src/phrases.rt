ghost use Rattle.std.specs.Prelude.{◌≡◌};
ghost use Rattle.rsml_parser.specs.Phrases as spec;
ghost use Rattle.rsml_parser.specs.Parsers.{Gives};

use crate::list::separated;
use crate::mentions::{amount, mention};
use crate::reader::{Fault, Reader};
use crate::sums::{relation, sum};
use rsml_syntax::{Amount, Mark, Phrase, Simple, Text, Word};
use std::alloc::Global;

fn path(alloc: Global, reader: &mut Reader<'_>) -> Result<Simple, Fault>
    ensures { Gives (spec.path reader.old) result reader.new }
{
    reader.word(Word::In)?;
    let path = separated(alloc, reader, Mark::Dot)?;
    Ok(Simple::In(path))
}

fn of_macro(alloc: Global, reader: &mut Reader<'_>) -> Result<Simple, Fault>
    ensures { Gives (spec.of_macro reader.old) result reader.new }
{
    reader.word(Word::Macro)?;
    let mention = mention(alloc, reader)?;
    Ok(Simple::Macro(mention))
}

fn of_function(alloc: Global, reader: &mut Reader<'_>) -> Result<Simple, Fault>
    ensures { Gives (spec.of_function reader.old) result reader.new }
{
    reader.word(Word::Function)?;
    let function = mention(alloc, reader)?;
    let relation = relation(reader)?;
    let right = sum(alloc, reader)?;
    Ok(Simple::Function {
        function,
        relation,
        right,
    })
}

fn comparison(alloc: Global, reader: &mut Reader<'_>) -> Result<Simple, Fault>
    ensures { Gives (spec.comparison reader.old) result reader.new }
{
    let left = sum(alloc, reader)?;
    let relation = relation(reader)?;
    let right = sum(alloc, reader)?;
    Ok(Simple::Compare {
        left,
        relation,
        right,
    })
}

fn simple(alloc: Global, reader: &mut Reader<'_>) -> Result<Simple, Fault>
    ensures { Gives (spec.simple reader.old) result reader.new }
{
    if reader.sees_word(Word::In) {
        return path(alloc, reader);
    }
    if reader.sees_word(Word::Macro) {
        return of_macro(alloc, reader);
    }
    if reader.sees_word(Word::Function) {
        return of_function(alloc, reader);
    }
    comparison(alloc, reader)
}

/// The variable, the bound and the body of a quantified phrase, after the quantifier.
fn quantified(alloc: Global, reader: &mut Reader<'_>) -> Result<(Text, Amount, Simple), Fault>
    ensures { Gives (spec.quantified reader.old) result reader.new }
{
    let variable = reader.name(alloc)?;
    reader.word(Word::Of)?;
    let bound = amount(alloc, reader)?;
    reader.mark(Mark::Colon)?;
    let body = simple(alloc, reader)?;
    Ok((variable, bound, body))
}

pub fn phrase(alloc: Global, reader: &mut Reader<'_>) -> Result<Phrase, Fault>
    ensures { Gives (spec.phrase reader.old) result reader.new }
{
    if reader.sees_word(Word::Any) {
        reader.word(Word::Any)?;
        let (variable, bound, body) = quantified(alloc, reader)?;
        return Ok(Phrase::Any {
            variable,
            bound,
            body,
        });
    }
    if reader.sees_word(Word::Every) {
        reader.word(Word::Every)?;
        let (variable, bound, body) = quantified(alloc, reader)?;
        return Ok(Phrase::Every {
            variable,
            bound,
            body,
        });
    }
    let simple = simple(alloc, reader)?;
    Ok(Phrase::Plain(simple))
}
