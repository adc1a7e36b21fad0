ghost use Rattle.std.specs.Prelude.{OnOk};
ghost use Rattle.rsml_syntax.specs.grammar.Grammar as grammar;
ghost use Rattle.rsml_syntax.specs.helpers.Printing.{Writes};

use super::items::{Print, print_arguments, print_block, print_members};
use super::printer::Printer;
use super::sums::print_size;
use crate::syntax::{Amount, Answer, Case, Decl, Initial, Mention, SendCase, Signed, Value};
use crate::token::{Mark, Word};
use rsml_base::{List, NoMemory, Text};

impl Print for Case {
    ghost tokens = { grammar.case_of };

    fn print(&self, printer: &mut Printer) -> Result<(), NoMemory> {
        self.value.print(printer)?;
        self.guard.print(printer)?;
        printer.mark(Mark::Semicolon)
    }
}

impl Print for Value {
    ghost tokens = { grammar.value };

    fn print(&self, printer: &mut Printer) -> Result<(), NoMemory> {
        match self {
            Value::Sum(sum) => sum.print(printer),
            Value::Function(function) => {
                printer.word(Word::Function)?;
                function.print(printer)
            }
        }
    }
}

impl Print for Answer {
    ghost tokens = { grammar.answer };

    fn print(&self, printer: &mut Printer) -> Result<(), NoMemory> {
        match self {
            Answer::Quiet => printer.word(Word::Quiet),
            Answer::Values(values) => print_arguments(values.as_slice(), printer),
        }
    }
}

impl Print for SendCase {
    ghost tokens = { grammar.send_case };

    fn print(&self, printer: &mut Printer) -> Result<(), NoMemory> {
        printer.word(Word::On)?;
        self.trigger.print(printer)?;
        self.guard.print(printer)?;
        self.answer.print(printer)?;
        printer.mark(Mark::Semicolon)
    }
}

fn print_range(
    name: &Text,
    low: &Signed,
    high: &Signed,
    printer: &mut Printer,
) -> Result<(), NoMemory>
    ensures { OnOk result (Writes printer.old printer.new (grammar.declaration (Decl.Range name.now low.now high.now))) }
{
    printer.word(Word::Range)?;
    printer.name(name)?;
    low.print(printer)?;
    printer.mark(Mark::DotDot)?;
    high.print(printer)?;
    printer.mark(Mark::Semicolon)
}

fn print_constant(name: &Text, value: &Signed, printer: &mut Printer) -> Result<(), NoMemory>
    ensures { OnOk result (Writes printer.old printer.new (grammar.declaration (Decl.Constant name.now value.now))) }
{
    printer.word(Word::Constant)?;
    printer.name(name)?;
    printer.mark(Mark::Equal)?;
    value.print(printer)?;
    printer.mark(Mark::Semicolon)
}

/// The word, the name and the size that a declaration begins with.
fn print_heading(
    word: Word,
    name: &Text,
    size: &Option<Amount>,
    printer: &mut Printer,
) -> Result<(), NoMemory>
    ensures { OnOk result (Writes printer.old printer.new (λ rest. grammar.word word (grammar.name name.now (grammar.size size.now rest)))) }
{
    printer.word(word)?;
    printer.name(name)?;
    print_size(size, printer)
}

fn print_input(
    name: &Text,
    size: &Option<Amount>,
    kind: &Text,
    initial: &Initial,
    printer: &mut Printer,
) -> Result<(), NoMemory>
    ensures { OnOk result (Writes printer.old printer.new (grammar.declaration (Decl.Input name.now size.now kind.now initial.now))) }
{
    print_heading(Word::Input, name, size, printer)?;
    printer.mark(Mark::Colon)?;
    printer.name(kind)?;
    printer.mark(Mark::Equal)?;
    initial.print(printer)?;
    printer.mark(Mark::Semicolon)
}

fn print_receive(
    name: &Text,
    size: &Option<Amount>,
    inputs: &List<Mention>,
    raised: &Mention,
    printer: &mut Printer,
) -> Result<(), NoMemory>
    ensures { OnOk result (Writes printer.old printer.new (grammar.declaration (Decl.Receive name.now size.now inputs.now raised.now))) }
{
    print_heading(Word::Receive, name, size, printer)?;
    print_arguments(inputs.as_slice(), printer)?;
    printer.word(Word::Raise)?;
    raised.print(printer)?;
    printer.mark(Mark::Semicolon)
}

fn print_send(
    name: &Text,
    size: &Option<Amount>,
    fields: &List<Text>,
    cases: &List<SendCase>,
    printer: &mut Printer,
) -> Result<(), NoMemory>
    ensures { OnOk result (Writes printer.old printer.new (grammar.declaration (Decl.Send name.now size.now fields.now cases.now))) }
{
    print_heading(Word::Send, name, size, printer)?;
    print_arguments(fields.as_slice(), printer)?;
    print_block(cases.as_slice(), printer)
}

impl Print for Decl {
    ghost tokens = { grammar.declaration };

    fn print(&self, printer: &mut Printer) -> Result<(), NoMemory> {
        match self {
            Decl::Enumeration { name, values } => {
                print_heading(Word::Enumeration, name, &None, printer)?;
                print_members(values.as_slice(), printer)
            }
            Decl::Range { name, low, high } => print_range(name, low, high, printer),
            Decl::Constant { name, value } => print_constant(name, value, printer),
            Decl::Input {
                name,
                size,
                kind,
                initial,
            } => print_input(name, size, kind, initial, printer),
            Decl::Event { name, size } => {
                print_heading(Word::Event, name, size, printer)?;
                printer.mark(Mark::Semicolon)
            }
            Decl::Macro { name, size, rows } => {
                print_heading(Word::Macro, name, size, printer)?;
                print_block(rows.as_slice(), printer)
            }
            Decl::Function { name, size, cases } => {
                print_heading(Word::Function, name, size, printer)?;
                print_block(cases.as_slice(), printer)
            }
            Decl::Receive {
                name,
                size,
                inputs,
                raised,
            } => print_receive(name, size, inputs, raised, printer),
            Decl::Send {
                name,
                size,
                fields,
                cases,
            } => print_send(name, size, fields, cases, printer),
        }
    }
}
