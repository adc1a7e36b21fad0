ghost use Rattle.std.specs.Prelude.{OnOk};
ghost use Rattle.rsml_syntax.specs.grammar.Grammar as grammar;
ghost use Rattle.rsml_syntax.specs.helpers.Printing.{Writes};

use super::items::{Print, print_each};
use super::printer::Printer;
use crate::syntax::{Amount, Index, Initial, Mention, Operand, Signed, Sum, Term};
use crate::token::{Mark, Word};
use rsml_base::{NoMemory, Text};

impl Print for Text {
    ghost tokens = { grammar.name };

    fn print(&self, printer: &mut Printer) -> Result<(), NoMemory> {
        printer.name(self)
    }
}

impl Print for Signed {
    ghost tokens = { grammar.signed };

    fn print(&self, printer: &mut Printer) -> Result<(), NoMemory> {
        if self.minus {
            printer.mark(Mark::Minus)?;
        }
        printer.number(self.digits)
    }
}

impl Print for Amount {
    ghost tokens = { grammar.amount };

    fn print(&self, printer: &mut Printer) -> Result<(), NoMemory> {
        match self {
            Amount::Number(number) => printer.number(*number),
            Amount::Name(name) => printer.name(name),
        }
    }
}

impl Print for Index {
    ghost tokens = { grammar.index };

    fn print(&self, printer: &mut Printer) -> Result<(), NoMemory> {
        match self {
            Index::Number(number) => printer.number(*number),
            Index::Name(name) => printer.name(name),
            Index::This => printer.word(Word::This),
        }
    }
}

impl Print for Mention {
    ghost tokens = { grammar.mention };

    fn print(&self, printer: &mut Printer) -> Result<(), NoMemory> {
        printer.name(&self.name)?;
        if let Some(index) = &self.index {
            printer.mark(Mark::OpenBracket)?;
            index.print(printer)?;
            printer.mark(Mark::CloseBracket)?;
        }
        Ok(())
    }
}

impl Print for Initial {
    ghost tokens = { grammar.initial };

    fn print(&self, printer: &mut Printer) -> Result<(), NoMemory> {
        match self {
            Initial::Number(number) => number.print(printer),
            Initial::Name(name) => printer.name(name),
        }
    }
}

/// The size in brackets, if there is one.
pub(crate) fn print_size(size: &Option<Amount>, printer: &mut Printer) -> Result<(), NoMemory>
    ensures { OnOk result (Writes printer.old printer.new (grammar.size size.now)) }
{
    if let Some(amount) = size {
        printer.mark(Mark::OpenBracket)?;
        amount.print(printer)?;
        printer.mark(Mark::CloseBracket)?;
    }
    Ok(())
}

impl Print for Operand {
    ghost tokens = { grammar.operand };

    fn print(&self, printer: &mut Printer) -> Result<(), NoMemory> {
        match self {
            Operand::Number(number) => printer.number(*number),
            Operand::Mention(mention) => mention.print(printer),
            Operand::Previous(mention) => {
                printer.word(Word::Previous)?;
                mention.print(printer)
            }
        }
    }
}

/// A term after the first, with its sign.
impl Print for Term {
    ghost tokens = { grammar.later_term };

    fn print(&self, printer: &mut Printer) -> Result<(), NoMemory> {
        if self.minus {
            printer.mark(Mark::Minus)?;
        } else {
            printer.mark(Mark::Plus)?;
        }
        self.operand.print(printer)
    }
}

fn print_first_term(term: &Term, printer: &mut Printer) -> Result<(), NoMemory>
    ensures { OnOk result (Writes printer.old printer.new (grammar.first_term term.now)) }
{
    if term.minus {
        printer.mark(Mark::Minus)?;
    }
    term.operand.print(printer)
}

impl Print for Sum {
    ghost tokens = { grammar.sum };

    fn print(&self, printer: &mut Printer) -> Result<(), NoMemory> {
        match self.terms.as_slice().split_first() {
            Some((first, others)) => {
                print_first_term(first, printer)?;
                print_each(others, printer)
            }
            None => Ok(()),
        }
    }
}
