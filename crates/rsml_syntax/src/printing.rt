ghost use Rattle.std.specs.Prelude.{◌≡◌, [], List, OnOk, IfOk};
ghost use Rattle.std.specs.String.{string_bytes};
ghost use Rattle.rsml_syntax.specs.declared.edition.Edition.TheVariants.{Second};
ghost use Rattle.rsml_syntax.specs.declared.token.Placed.{Placed};
ghost use Rattle.rsml_syntax.specs.grammar.Grammar.{tokens_of};
ghost use Rattle.rsml_syntax.specs.grammar.Layout.{layout};
ghost use Rattle.rsml_syntax.specs.text.Lexing.{Lexes, bare};
ghost use Rattle.rsml_syntax.specs.helpers.Printing.{with_tokens};
ghost use Rattle.rsml_syntax.specs.grammar.WellFormed.{WellFormed};

mod declarations;
mod items;
mod printer;
mod spacing;
mod states;
mod sums;
mod tables;

use crate::syntax::Spec;
use crate::token::{Mark, Word};
use items::print_each;
use printer::Printer;
use rsml_base::NoMemory;
use states::print_body;
use std::alloc::Global;

fn print_tokens(spec: &Spec, printer: &mut Printer) -> Result<(), NoMemory>
    ensures { OnOk result (with_tokens printer.old (tokens_of spec.now) ≡ with_tokens printer.new []) }
{
    printer.word(Word::Specification)?;
    printer.name(&spec.name)?;
    printer.mark(Mark::Semicolon)?;
    print_each(spec.decls.as_slice(), printer)?;
    printer.word(Word::State)?;
    printer.name(&spec.top)?;
    print_body(&spec.body, printer)
}

/// The bytes of the layout.
fn layout_of(alloc: Global, spec: &Spec) -> Result<Vec<u8>, NoMemory>
    ensures { IfOk result (λ bytes. bytes.items ≡ layout (tokens_of spec.now)) }
{
    let mut printer = Printer::new(alloc);
    print_tokens(spec, &mut printer)?;
    printer.finish()
}

/// The layout of a specification.
pub fn print_spec(alloc: Global, spec: &Spec) -> Result<String, NoMemory>
    requires { WellFormed spec.now }
    ensures layout { IfOk result (λ text. string_bytes text ≡ layout (tokens_of spec.now)) }
    // Read again, the text has the tokens of the specification.
    ensures reads { IfOk result (λ text.
        (ts : List Placed) × Lexes Second (string_bytes text) ts × (bare ts ≡ tokens_of spec.now)) }
{
    match String::from_utf8(layout_of(alloc, spec)?) {
        Ok(text) => Ok(text),
        Err(_) => unreachable!(),
    }
}
