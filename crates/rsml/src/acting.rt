ghost use Rattle.std.specs.Prelude.{◌≡◌, ◌≢◌, ◌≤◌, IfOk, List, ℕ};
ghost use Rattle.answering.specs.Outcomes.{CameTo, answer_of, bytes_of};
ghost use Rattle.rsml.specs.Commands.{IsCounted};
ghost use Rattle.rsml.specs.Output.{ActionOutput};

use crate::command::Action;
use answering::{GREATEST_FILE, Outcome, unread};
use checking::{check, format, migrate};
use explaining::explain;
use gapping::{explain_gaps, gaps};
use rsml_io::{Files, read_all};
use rsml_syntax::NoMemory;
use std::alloc::Global;

/// What an action comes to on the text of a file with this name.
fn outcome_of(alloc: Global, action: Action, file: &[u8], text: &[u8]) -> Result<Outcome, NoMemory>
    requires { IsCounted action }
    ensures { IfOk result (λ o. ActionOutput action text.now (answer_of o) (bytes_of o)) }
{
    match action {
        Action::Check => check(alloc, text),
        Action::Explain => explain(alloc, file, text),
        Action::Format => format(alloc, text),
        Action::Migrate => migrate(alloc, text),
        Action::Gaps(most) => gaps(alloc, text, most),
        Action::ExplainGaps(most) => explain_gaps(alloc, file, text, most),
    }
}

/// What an action comes to on a file.
pub fn come_to<F: Files>(
    alloc: Global,
    action: Action,
    file: &str,
    files: &mut F,
) -> Result<Outcome, NoMemory>
    requires { IsCounted action }
    ensures came { IfOk result (CameTo (ActionOutput action) (record {
      told = F.contents files.old file.now;
      reach = F.reach files.old file.now;
      reach_after = F.reach files.new file.now;
      refusals = F.faults files.old file.now;
      refusals_after = F.faults files.new file.now;
    })) }
    ensures contents { (name : List ℕ) → F.contents files.new name ≡ F.contents files.old name }
    ensures count { (name : List ℕ) → F.faults files.old name ≤ F.faults files.new name }
    ensures others { (name : List ℕ) → name ≢ file.now → F.reach files.new name ≡ F.reach files.old name }
{
    match read_all(alloc, files, file, GREATEST_FILE) {
        Ok(text) => outcome_of(alloc, action, file.as_bytes(), text.as_slice()),
        Err(error) => unread(error),
    }
}
