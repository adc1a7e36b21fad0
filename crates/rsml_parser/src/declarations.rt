ghost use Rattle.std.specs.Prelude.{◌≡◌};
ghost use Rattle.rsml_parser.specs.Declarations as spec;
ghost use Rattle.rsml_parser.specs.Parsers.{Gives};

use crate::list::{in_parentheses, separated, until};
use crate::mentions::{initial, mention, signed, size};
use crate::reader::{Fault, Reader};
use crate::tables::table;
use rsml_syntax::{Decl, Mark, Word};
use std::alloc::Global;

fn enumeration(alloc: Global, reader: &mut Reader<'_>) -> Result<Decl, Fault>
    ensures { Gives (spec.enumeration reader.old) result reader.new }
{
    reader.word(Word::Enumeration)?;
    let name = reader.name(alloc)?;
    reader.mark(Mark::OpenBrace)?;
    let values = separated(alloc, reader, Mark::Comma)?;
    reader.mark(Mark::CloseBrace)?;
    Ok(Decl::Enumeration { name, values })
}

fn range(alloc: Global, reader: &mut Reader<'_>) -> Result<Decl, Fault>
    ensures { Gives (spec.range reader.old) result reader.new }
{
    reader.word(Word::Range)?;
    let name = reader.name(alloc)?;
    let low = signed(reader)?;
    reader.mark(Mark::DotDot)?;
    let high = signed(reader)?;
    reader.mark(Mark::Semicolon)?;
    Ok(Decl::Range { name, low, high })
}

fn constant(alloc: Global, reader: &mut Reader<'_>) -> Result<Decl, Fault>
    ensures { Gives (spec.constant reader.old) result reader.new }
{
    reader.word(Word::Constant)?;
    let name = reader.name(alloc)?;
    reader.mark(Mark::Equal)?;
    let value = signed(reader)?;
    reader.mark(Mark::Semicolon)?;
    Ok(Decl::Constant { name, value })
}

fn input(alloc: Global, reader: &mut Reader<'_>) -> Result<Decl, Fault>
    ensures { Gives (spec.input reader.old) result reader.new }
{
    reader.word(Word::Input)?;
    let name = reader.name(alloc)?;
    let size = size(alloc, reader)?;
    reader.mark(Mark::Colon)?;
    let kind = reader.name(alloc)?;
    reader.mark(Mark::Equal)?;
    let initial = initial(alloc, reader)?;
    reader.mark(Mark::Semicolon)?;
    Ok(Decl::Input {
        name,
        size,
        kind,
        initial,
    })
}

fn event(alloc: Global, reader: &mut Reader<'_>) -> Result<Decl, Fault>
    ensures { Gives (spec.event reader.old) result reader.new }
{
    reader.word(Word::Event)?;
    let name = reader.name(alloc)?;
    let size = size(alloc, reader)?;
    reader.mark(Mark::Semicolon)?;
    Ok(Decl::Event { name, size })
}

fn macro_table(alloc: Global, reader: &mut Reader<'_>) -> Result<Decl, Fault>
    ensures { Gives (spec.macro_table reader.old) result reader.new }
{
    reader.word(Word::Macro)?;
    let name = reader.name(alloc)?;
    let size = size(alloc, reader)?;
    let rows = table(alloc, reader)?;
    Ok(Decl::Macro { name, size, rows })
}

fn function(alloc: Global, reader: &mut Reader<'_>) -> Result<Decl, Fault>
    ensures { Gives (spec.function reader.old) result reader.new }
{
    reader.word(Word::Function)?;
    let name = reader.name(alloc)?;
    let size = size(alloc, reader)?;
    reader.mark(Mark::OpenBrace)?;
    let cases = until(alloc, reader, Mark::CloseBrace)?;
    Ok(Decl::Function { name, size, cases })
}

fn receive(alloc: Global, reader: &mut Reader<'_>) -> Result<Decl, Fault>
    ensures { Gives (spec.receive reader.old) result reader.new }
{
    reader.word(Word::Receive)?;
    let name = reader.name(alloc)?;
    let size = size(alloc, reader)?;
    let inputs = in_parentheses(alloc, reader)?;
    reader.word(Word::Raise)?;
    let raised = mention(alloc, reader)?;
    reader.mark(Mark::Semicolon)?;
    Ok(Decl::Receive {
        name,
        size,
        inputs,
        raised,
    })
}

fn send(alloc: Global, reader: &mut Reader<'_>) -> Result<Decl, Fault>
    ensures { Gives (spec.send reader.old) result reader.new }
{
    reader.word(Word::Send)?;
    let name = reader.name(alloc)?;
    let size = size(alloc, reader)?;
    let fields = in_parentheses(alloc, reader)?;
    reader.mark(Mark::OpenBrace)?;
    let cases = until(alloc, reader, Mark::CloseBrace)?;
    Ok(Decl::Send {
        name,
        size,
        fields,
        cases,
    })
}

pub fn declaration(alloc: Global, reader: &mut Reader<'_>) -> Result<Decl, Fault>
    ensures { Gives (spec.declaration reader.old) result reader.new }
{
    if reader.sees_word(Word::Enumeration) {
        return enumeration(alloc, reader);
    }
    if reader.sees_word(Word::Range) {
        return range(alloc, reader);
    }
    if reader.sees_word(Word::Constant) {
        return constant(alloc, reader);
    }
    if reader.sees_word(Word::Input) {
        return input(alloc, reader);
    }
    if reader.sees_word(Word::Event) {
        return event(alloc, reader);
    }
    if reader.sees_word(Word::Macro) {
        return macro_table(alloc, reader);
    }
    if reader.sees_word(Word::Function) {
        return function(alloc, reader);
    }
    if reader.sees_word(Word::Receive) {
        return receive(alloc, reader);
    }
    send(alloc, reader)
}
