ghost use Rattle.std.specs.Prelude.{OnOk};
ghost use Rattle.rsml_syntax.specs.declared.token.Mark.TheVariants as marks;
ghost use Rattle.rsml_syntax.specs.grammar.Grammar as grammar;
ghost use Rattle.rsml_syntax.specs.helpers.Printing.{Writes};
ghost use Rattle.rsml_syntax.specs.text.Tokens.{Tokens};

use super::printer::Printer;
use crate::token::Mark;
use rsml_base::NoMemory;

/// What is written as tokens.
pub(crate) trait Print {
    ghost tokens: { Self → Tokens → Tokens };

    fn print(&self, printer: &mut Printer) -> Result<(), NoMemory>
        ensures { OnOk result (Writes printer.old printer.new (tokens self.now)) };
}

/// One after another.
pub(crate) fn print_each<T: Print>(items: &[T], printer: &mut Printer) -> Result<(), NoMemory>
    ensures { OnOk result (Writes printer.old printer.new (grammar.each T.tokens items.now)) }
{
    for item in items {
        item.print(printer)?;
    }
    Ok(())
}

/// Each after the mark.
fn print_each_after<T: Print>(
    mark: Mark,
    items: &[T],
    printer: &mut Printer,
) -> Result<(), NoMemory>
    ensures { OnOk result (Writes printer.old printer.new (grammar.each_after mark T.tokens items.now)) }
{
    for item in items {
        printer.mark(mark)?;
        item.print(printer)?;
    }
    Ok(())
}

/// With the mark between each two.
pub(crate) fn print_separated<T: Print>(
    mark: Mark,
    items: &[T],
    printer: &mut Printer,
) -> Result<(), NoMemory>
    ensures { OnOk result (Writes printer.old printer.new (grammar.separated mark T.tokens items.now)) }
{
    match items.split_first() {
        Some((first, others)) => {
            first.print(printer)?;
            print_each_after(mark, others, printer)
        }
        None => Ok(()),
    }
}

/// One after another in braces.
pub(crate) fn print_block<T: Print>(items: &[T], printer: &mut Printer) -> Result<(), NoMemory>
    ensures { OnOk result (Writes printer.old printer.new (λ rest.
        grammar.mark marks.OpenBrace (grammar.each T.tokens items.now (grammar.mark marks.CloseBrace rest)))) }
{
    printer.mark(Mark::OpenBrace)?;
    print_each(items, printer)?;
    printer.mark(Mark::CloseBrace)
}

/// With commas between them in braces.
pub(crate) fn print_members<T: Print>(items: &[T], printer: &mut Printer) -> Result<(), NoMemory>
    ensures { OnOk result (Writes printer.old printer.new (λ rest.
        grammar.mark marks.OpenBrace (grammar.separated marks.Comma T.tokens items.now (grammar.mark marks.CloseBrace rest)))) }
{
    printer.mark(Mark::OpenBrace)?;
    print_separated(Mark::Comma, items, printer)?;
    printer.mark(Mark::CloseBrace)
}

/// With commas between them in parentheses.
pub(crate) fn print_arguments<T: Print>(items: &[T], printer: &mut Printer) -> Result<(), NoMemory>
    ensures { OnOk result (Writes printer.old printer.new (λ rest.
        grammar.mark marks.OpenParen (grammar.separated marks.Comma T.tokens items.now (grammar.mark marks.CloseParen rest)))) }
{
    printer.mark(Mark::OpenParen)?;
    print_separated(Mark::Comma, items, printer)?;
    printer.mark(Mark::CloseParen)
}
