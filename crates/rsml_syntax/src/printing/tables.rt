ghost use Rattle.std.specs.Prelude.{OnOk};
ghost use Rattle.rsml_syntax.specs.grammar.Grammar as grammar;
ghost use Rattle.rsml_syntax.specs.helpers.Printing.{Writes};

use super::items::{Print, print_block, print_each, print_separated};
use super::printer::Printer;
use crate::syntax::{Amount, Cell, Guard, Phrase, Relation, Row, Simple};
use crate::token::{Mark, Word};
use rsml_base::{NoMemory, Text};

impl Print for Relation {
    ghost tokens = { grammar.relation };

    fn print(&self, printer: &mut Printer) -> Result<(), NoMemory> {
        let mark = match self {
            Relation::Equal => Mark::Equal,
            Relation::NotEqual => Mark::NotEqual,
            Relation::Less => Mark::Less,
            Relation::LessEqual => Mark::LessEqual,
            Relation::Greater => Mark::Greater,
            Relation::GreaterEqual => Mark::GreaterEqual,
        };
        printer.mark(mark)
    }
}

impl Print for Simple {
    ghost tokens = { grammar.simple };

    fn print(&self, printer: &mut Printer) -> Result<(), NoMemory> {
        match self {
            Simple::In(path) => {
                printer.word(Word::In)?;
                print_separated(Mark::Dot, path.as_slice(), printer)
            }
            Simple::Macro(mention) => {
                printer.word(Word::Macro)?;
                mention.print(printer)
            }
            Simple::Compare {
                left,
                relation,
                right,
            } => {
                left.print(printer)?;
                relation.print(printer)?;
                right.print(printer)
            }
            Simple::Function {
                function,
                relation,
                right,
            } => {
                printer.word(Word::Function)?;
                function.print(printer)?;
                relation.print(printer)?;
                right.print(printer)
            }
        }
    }
}

fn print_quantified(
    quantifier: Word,
    variable: &Text,
    bound: &Amount,
    body: &Simple,
    printer: &mut Printer,
) -> Result<(), NoMemory>
    ensures { OnOk result (Writes printer.old printer.new (grammar.quantified quantifier variable.now bound.now body.now)) }
{
    printer.word(quantifier)?;
    printer.name(variable)?;
    printer.word(Word::Of)?;
    bound.print(printer)?;
    printer.mark(Mark::Colon)?;
    body.print(printer)
}

impl Print for Phrase {
    ghost tokens = { grammar.phrase };

    fn print(&self, printer: &mut Printer) -> Result<(), NoMemory> {
        match self {
            Phrase::Plain(body) => body.print(printer),
            Phrase::Any {
                variable,
                bound,
                body,
            } => print_quantified(Word::Any, variable, bound, body, printer),
            Phrase::Every {
                variable,
                bound,
                body,
            } => print_quantified(Word::Every, variable, bound, body, printer),
        }
    }
}

impl Print for Cell {
    ghost tokens = { grammar.cell };

    fn print(&self, printer: &mut Printer) -> Result<(), NoMemory> {
        match self {
            Cell::T => printer.word(Word::T),
            Cell::F => printer.word(Word::F),
            Cell::Dot => printer.mark(Mark::Dot),
        }
    }
}

impl Print for Row {
    ghost tokens = { grammar.row };

    fn print(&self, printer: &mut Printer) -> Result<(), NoMemory> {
        self.phrase.print(printer)?;
        printer.mark(Mark::Bar)?;
        print_each(self.cells.as_slice(), printer)?;
        printer.mark(Mark::Semicolon)
    }
}

/// The guard, after the word `when`.
impl Print for Guard {
    ghost tokens = { grammar.when_guard };

    fn print(&self, printer: &mut Printer) -> Result<(), NoMemory> {
        printer.word(Word::When)?;
        match self {
            Guard::Always => printer.word(Word::Always),
            Guard::Table(rows) => print_block(rows.as_slice(), printer),
        }
    }
}
