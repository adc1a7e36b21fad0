ghost use Rattle.std.specs.Prelude.{◌≡◌};
ghost use Rattle.rsml_parser.specs.Mentions as spec;
ghost use Rattle.rsml_parser.specs.Parsers.{Gives};

use crate::list::Item;
use crate::reader::{Fault, Reader};
use rsml_syntax::{Amount, Index, Initial, Mark, Mention, Signed, Text, Word};
use std::alloc::Global;

pub fn minus(reader: &mut Reader<'_>) -> Result<bool, Fault>
    ensures { Gives (spec.minus reader.old) result reader.new }
{
    if reader.sees_mark(Mark::Minus) {
        reader.mark(Mark::Minus)?;
        return Ok(true);
    }
    Ok(false)
}

pub fn signed(reader: &mut Reader<'_>) -> Result<Signed, Fault>
    ensures { Gives (spec.signed reader.old) result reader.new }
{
    let minus = minus(reader)?;
    let digits = reader.number()?;
    Ok(Signed { minus, digits })
}

pub fn amount(alloc: Global, reader: &mut Reader<'_>) -> Result<Amount, Fault>
    ensures { Gives (spec.amount reader.old) result reader.new }
{
    if reader.sees_number() {
        let number = reader.number()?;
        return Ok(Amount::Number(number));
    }
    let name = reader.name(alloc)?;
    Ok(Amount::Name(name))
}

pub fn bracketed_amount(alloc: Global, reader: &mut Reader<'_>) -> Result<Amount, Fault>
    ensures { Gives (spec.bracketed_amount reader.old) result reader.new }
{
    reader.mark(Mark::OpenBracket)?;
    let amount = amount(alloc, reader)?;
    reader.mark(Mark::CloseBracket)?;
    Ok(amount)
}

pub fn size(alloc: Global, reader: &mut Reader<'_>) -> Result<Option<Amount>, Fault>
    ensures { Gives (spec.size reader.old) result reader.new }
{
    if reader.sees_mark(Mark::OpenBracket) {
        let amount = bracketed_amount(alloc, reader)?;
        return Ok(Some(amount));
    }
    Ok(None)
}

fn index(alloc: Global, reader: &mut Reader<'_>) -> Result<Index, Fault>
    ensures { Gives (spec.index reader.old) result reader.new }
{
    if reader.sees_number() {
        let number = reader.number()?;
        return Ok(Index::Number(number));
    }
    if reader.sees_name() {
        let name = reader.name(alloc)?;
        return Ok(Index::Name(name));
    }
    reader.word(Word::This)?;
    Ok(Index::This)
}

fn bracketed_index(alloc: Global, reader: &mut Reader<'_>) -> Result<Index, Fault>
    ensures { Gives (spec.bracketed_index reader.old) result reader.new }
{
    reader.mark(Mark::OpenBracket)?;
    let index = index(alloc, reader)?;
    reader.mark(Mark::CloseBracket)?;
    Ok(index)
}

fn indexed(alloc: Global, reader: &mut Reader<'_>) -> Result<Option<Index>, Fault>
    ensures { Gives (spec.indexed reader.old) result reader.new }
{
    if reader.sees_mark(Mark::OpenBracket) {
        let index = bracketed_index(alloc, reader)?;
        return Ok(Some(index));
    }
    Ok(None)
}

pub fn mention(alloc: Global, reader: &mut Reader<'_>) -> Result<Mention, Fault>
    ensures { Gives (spec.mention reader.old) result reader.new }
{
    let name = reader.name(alloc)?;
    let index = indexed(alloc, reader)?;
    Ok(Mention { name, index })
}

pub fn initial(alloc: Global, reader: &mut Reader<'_>) -> Result<Initial, Fault>
    ensures { Gives (spec.initial reader.old) result reader.new }
{
    if reader.sees_name() {
        let name = reader.name(alloc)?;
        return Ok(Initial::Name(name));
    }
    let number = signed(reader)?;
    Ok(Initial::Number(number))
}

impl Item for Text {
    ghost use Rattle.rsml_parser.specs.Parsers as parsers;

    ghost parser = { parsers.name };

    fn read(alloc: Global, reader: &mut Reader<'_>) -> Result<Text, Fault> {
        reader.name(alloc)
    }
}

impl Item for Mention {
    ghost parser = { spec.mention };

    fn read(alloc: Global, reader: &mut Reader<'_>) -> Result<Mention, Fault> {
        mention(alloc, reader)
    }
}
