ghost use Rattle.std.specs.Prelude.{◌≡◌, IfOk};
ghost use Rattle.source_notes.specs.Comments.{AreComments};

use crate::others::tell_others;
use rsml_base::NoMemory;
use rsml_rules::RuleError;
use rsml_syntax::Spec;
use rule_faults::{tell_broken, tell_exceeded};
use source_notes::Notes;
use std::alloc::Global;

/// Tells which rule or limit a specification breaks, and what else is wrong.
fn tell_rule(notes: &mut Notes<'_>, spec: &Spec, error: &RuleError) -> Result<(), NoMemory> {
    match error {
        RuleError::Rule { number, name } => {
            tell_broken(notes, spec, *number, name)?;
            tell_others(notes, spec, *number, name)
        }
        RuleError::Limit { number, count } => {
            tell_exceeded(notes, spec, *number, *count);
            Ok(())
        }
        RuleError::NoMemory => Err(NoMemory),
    }
}

/// Comment lines that tell which rule or limit a specification breaks, where, and why; and then what else is wrong, in the order of
/// the text.
pub fn rule_notes(
    alloc: Global,
    file: &[u8],
    text: &[u8],
    spec: &Spec,
    error: &RuleError,
) -> Result<Vec<u8>, NoMemory>
    ensures { IfOk result (λ v. AreComments v.items) }
{
    let mut notes = Notes::new(alloc, file, text);
    tell_rule(&mut notes, spec, error)?;
    notes.bytes()
}
