ghost use Rattle.std.specs.Prelude.{◌≡◌};
ghost use Rattle.rsml_parser.specs.Parsers as parsers;
ghost use Rattle.rsml_parser.specs.Parsers.{Gives};
ghost use Rattle.rsml_parser.specs.Sums as spec;

use crate::list::{Item, Listed, many_after};
use crate::mentions::{mention, minus};
use crate::reader::{Fault, Reader};
use rsml_syntax::{Mark, Operand, Relation, Sum, Term, Word};
use std::alloc::Global;

fn operand(alloc: Global, reader: &mut Reader<'_>) -> Result<Operand, Fault>
    ensures { Gives (spec.operand reader.old) result reader.new }
{
    if reader.sees_number() {
        let number = reader.number()?;
        return Ok(Operand::Number(number));
    }
    if reader.sees_word(Word::Previous) {
        reader.word(Word::Previous)?;
        let mention = mention(alloc, reader)?;
        return Ok(Operand::Previous(mention));
    }
    let mention = mention(alloc, reader)?;
    Ok(Operand::Mention(mention))
}

fn first_term(alloc: Global, reader: &mut Reader<'_>) -> Result<Term, Fault>
    ensures { Gives (spec.first_term reader.old) result reader.new }
{
    let minus = minus(reader)?;
    let operand = operand(alloc, reader)?;
    Ok(Term { minus, operand })
}

/// Whether a sign is a minus.
fn sign(reader: &mut Reader<'_>) -> Result<bool, Fault>
    ensures { Gives (spec.sign reader.old) result reader.new }
{
    if reader.sees_mark(Mark::Plus) {
        reader.mark(Mark::Plus)?;
        return Ok(false);
    }
    reader.mark(Mark::Minus)?;
    Ok(true)
}

/// Terms after the first.
impl Item for Term {
    ghost parser = { spec.later_term };

    fn read(alloc: Global, reader: &mut Reader<'_>) -> Result<Term, Fault> {
        let minus = sign(reader)?;
        let operand = operand(alloc, reader)?;
        Ok(Term { minus, operand })
    }
}

impl Listed for Term {
    ghost begins = { spec.is_sign };

    fn begins(reader: &Reader<'_>) -> bool {
        reader.sees_mark(Mark::Plus) || reader.sees_mark(Mark::Minus)
    }
}

pub fn sum(alloc: Global, reader: &mut Reader<'_>) -> Result<Sum, Fault>
    ensures { Gives (spec.sum reader.old) result reader.new }
{
    let first = first_term(alloc, reader)?;
    let terms = many_after(alloc, reader, first)?;
    Ok(Sum { terms })
}

pub fn relation(reader: &mut Reader<'_>) -> Result<Relation, Fault>
    ensures { Gives (spec.relation reader.old) result reader.new }
{
    if reader.sees_mark(Mark::Equal) {
        reader.mark(Mark::Equal)?;
        return Ok(Relation::Equal);
    }
    if reader.sees_mark(Mark::NotEqual) {
        reader.mark(Mark::NotEqual)?;
        return Ok(Relation::NotEqual);
    }
    if reader.sees_mark(Mark::Less) {
        reader.mark(Mark::Less)?;
        return Ok(Relation::Less);
    }
    if reader.sees_mark(Mark::LessEqual) {
        reader.mark(Mark::LessEqual)?;
        return Ok(Relation::LessEqual);
    }
    if reader.sees_mark(Mark::Greater) {
        reader.mark(Mark::Greater)?;
        return Ok(Relation::Greater);
    }
    reader.mark(Mark::GreaterEqual)?;
    Ok(Relation::GreaterEqual)
}
