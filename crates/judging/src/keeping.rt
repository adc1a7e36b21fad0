ghost use Rattle.std.specs.Prelude.{IfOk, List, ℕ};
ghost use Rattle.rsml_syntax.specs.grammar.WellFormed.{WellFormed};
ghost use Rattle.judging.specs.Judgements.{IsKept};
ghost use Rattle.judging.specs.Texts.{IsTextOf};

use crate::fault_lines::rule_fault;
use crate::kept_text::Kept;
use crate::texts::{ReadText, read_text};
use rsml_lexer::GREATEST_TEXT;
use rsml_rules::check_rules;
use rsml_syntax::{NoMemory, Spec};
use std::alloc::Global;

/// Whether a specification keeps the rules and the limits.
fn kept_specification(alloc: Global, spec: Spec) -> Result<Kept, NoMemory>
    requires { WellFormed spec }
    ensures { (text : List ℕ) → IsTextOf text spec → IfOk result (IsKept text) }
{
    match check_rules(alloc, spec) {
        Ok(checked) => Ok(Kept::Checked(checked)),
        Err(error) => Ok(Kept::Broken {
            line: rule_fault(alloc, error)?,
        }),
    }
}

/// What the bytes of a specification are, whatever they are, without its analysis: whether they read, and keep the rules and the
/// limits. The only error is out of memory.
pub fn kept(alloc: Global, text: &[u8]) -> Result<Kept, NoMemory>
    ensures { IfOk result (IsKept text.now) }
{
    if text.len() > GREATEST_TEXT {
        return Ok(Kept::TooLong);
    }
    match read_text(alloc, text)? {
        ReadText::Specification(spec) => kept_specification(alloc, spec),
        ReadText::Fault(line) => Ok(Kept::Unread { line }),
    }
}
