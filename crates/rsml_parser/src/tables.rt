ghost use Rattle.std.specs.Prelude.{◌≡◌};
ghost use Rattle.rsml_parser.specs.Parsers as parsers;
ghost use Rattle.rsml_parser.specs.Parsers.{Gives};
ghost use Rattle.rsml_parser.specs.Tables as spec;
ghost use Rattle.rsml_syntax.specs.declared.token.Mark.TheVariants as marks;

use crate::list::{Item, Listed, until};
use crate::phrases::phrase;
use crate::reader::{Fault, Reader};
use rsml_syntax::{Cell, Guard, List, Mark, Row, Word};
use std::alloc::Global;

fn cell(reader: &mut Reader<'_>) -> Result<Cell, Fault>
    ensures { Gives (spec.cell reader.old) result reader.new }
{
    if reader.sees_word(Word::T) {
        reader.word(Word::T)?;
        return Ok(Cell::T);
    }
    if reader.sees_word(Word::F) {
        reader.word(Word::F)?;
        return Ok(Cell::F);
    }
    reader.mark(Mark::Dot)?;
    Ok(Cell::Dot)
}

impl Item for Cell {
    ghost parser = { spec.cell };

    fn read(_alloc: Global, reader: &mut Reader<'_>) -> Result<Cell, Fault> {
        cell(reader)
    }
}

impl Listed for Cell {
    ghost begins = { parsers.is_not marks.Semicolon };

    fn begins(reader: &Reader<'_>) -> bool {
        reader.goes_on(Mark::Semicolon)
    }
}

fn row(alloc: Global, reader: &mut Reader<'_>) -> Result<Row, Fault>
    ensures { Gives (spec.row reader.old) result reader.new }
{
    let phrase = phrase(alloc, reader)?;
    reader.mark(Mark::Bar)?;
    let cells = until(alloc, reader, Mark::Semicolon)?;
    Ok(Row { phrase, cells })
}

impl Item for Row {
    ghost parser = { spec.row };

    fn read(alloc: Global, reader: &mut Reader<'_>) -> Result<Row, Fault> {
        row(alloc, reader)
    }
}

impl Listed for Row {
    ghost begins = { parsers.is_not marks.CloseBrace };

    fn begins(reader: &Reader<'_>) -> bool {
        reader.goes_on(Mark::CloseBrace)
    }
}

pub fn table(alloc: Global, reader: &mut Reader<'_>) -> Result<List<Row>, Fault>
    ensures { Gives (spec.table reader.old) result reader.new }
{
    reader.mark(Mark::OpenBrace)?;
    until(alloc, reader, Mark::CloseBrace)
}

fn guard(alloc: Global, reader: &mut Reader<'_>) -> Result<Guard, Fault>
    ensures { Gives (spec.guard reader.old) result reader.new }
{
    if reader.sees_word(Word::Always) {
        reader.word(Word::Always)?;
        return Ok(Guard::Always);
    }
    let rows = table(alloc, reader)?;
    Ok(Guard::Table(rows))
}

pub fn when_guard(alloc: Global, reader: &mut Reader<'_>) -> Result<Guard, Fault>
    ensures { Gives (spec.when_guard reader.old) result reader.new }
{
    reader.word(Word::When)?;
    guard(alloc, reader)
}
