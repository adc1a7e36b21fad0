ghost use Rattle.std.specs.Prelude.{◌≡◌, IfOk};
ghost use Rattle.rsml_syntax.specs.grammar.Grammar.{tokens_of};
ghost use Rattle.rsml_syntax.specs.grammar.Layout.{layout};
ghost use Rattle.rsml_syntax.specs.grammar.WellFormed.{WellFormed};
ghost use Rattle.answering.specs.Outcomes.{answer_of, bytes_of};
ghost use Rattle.answering.specs.declared.status.Status.TheVariants as answers;
ghost use Rattle.checking.specs.Outputs.{FormatOutput, MigrateOutput};
ghost use Rattle.checking.specs.Steps.{IsFormed, IsLaidOut};

use answering::{Outcome, Status};
use judging::{ReadText, read_first_edition, read_text};
use rsml_lexer::GREATEST_TEXT;
use rsml_syntax::{NoMemory, Spec, print_spec};
use std::alloc::Global;

/// The layout of a specification.
fn lay_out(alloc: Global, spec: &Spec) -> Result<Outcome, NoMemory>
    requires { WellFormed spec.now }
    ensures status { IfOk result (λ o. answer_of o ≡ answers.Done) }
    ensures text { IfOk result (λ o. bytes_of o ≡ layout (tokens_of spec.now)) }
{
    let layout = print_spec(alloc, spec)?;
    Ok(Outcome::Text {
        status: Status::Done,
        text: layout.into_bytes(),
    })
}

/// The layout of the specification that was read, or the line of its first fault.
fn laid_out(alloc: Global, read: ReadText) -> Result<Outcome, NoMemory>
    requires { IsFormed read }
    ensures { IfOk result (IsLaidOut read) }
{
    match read {
        ReadText::Specification(spec) => lay_out(alloc, &spec),
        ReadText::Fault(line) => Ok(Outcome::Text {
            status: Status::SpecFault,
            text: line,
        }),
    }
}

/// What `format` comes to on a text.
pub fn format(alloc: Global, text: &[u8]) -> Result<Outcome, NoMemory>
    ensures { IfOk result (λ o. FormatOutput text.now (answer_of o) (bytes_of o)) }
{
    if text.len() > GREATEST_TEXT {
        return Ok(Outcome::Long);
    }
    let read = read_text(alloc, text)?;
    laid_out(alloc, read)
}

/// What `migrate` comes to on a text.
pub fn migrate(alloc: Global, text: &[u8]) -> Result<Outcome, NoMemory>
    ensures { IfOk result (λ o. MigrateOutput text.now (answer_of o) (bytes_of o)) }
{
    if text.len() > GREATEST_TEXT {
        return Ok(Outcome::Long);
    }
    let read = read_first_edition(alloc, text)?;
    laid_out(alloc, read)
}
