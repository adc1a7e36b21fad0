ghost use Rattle.std.specs.Prelude.{◌≡◌, ◌≢◌, ◌≤◌, IfOk, List, ℕ};
ghost use Rattle.answering.specs.Outcomes.{answer_of, bytes_of};
ghost use Rattle.pairing.specs.Kept.{IsKeptText};
ghost use Rattle.pairing.specs.Steps.{CameTo, ShownOutput};

use crate::pair_action::PairAction;
use crate::unread::unread;
use answering::{GREATEST_FILE, Outcome};
use comparing::{compare, explain_compare};
use frame_notes::Side;
use proving::{explain_prove, prove};
use rsml_io::{Files, read_all};
use rsml_syntax::NoMemory;
use std::alloc::Global;

/// What an action comes to on a second text, of a file with this name, where the first is kept.
fn outcome_of(
    alloc: Global,
    action: PairAction,
    first: Side<'_>,
    file: &[u8],
    other: &[u8],
) -> Result<Outcome, NoMemory>
    requires { IsKeptText first.text.now first.checked.now }
    ensures { IfOk result (λ o. ShownOutput action first.entry.checked.now other.now (answer_of o) (bytes_of o)) }
{
    match action {
        PairAction::Prove => prove(alloc, first.text, first.checked, other),
        PairAction::ExplainProve => {
            explain_prove(alloc, first.file, first.text, first.checked, file, other)
        }
        PairAction::Same => compare(alloc, first.checked, other),
        PairAction::ExplainSame => explain_compare(alloc, first, file, other),
    }
}

/// What an action comes to on the second file, where the text of the first is kept.
pub fn come_to<F: Files>(
    alloc: Global,
    action: PairAction,
    first: Side<'_>,
    other: &str,
    files: &mut F,
) -> Result<Outcome, NoMemory>
    requires { IsKeptText first.text.now first.checked.now }
    ensures came { IfOk result (CameTo (ShownOutput action first.entry.checked.now) (record {
      told = F.contents files.old other.now;
      reach = F.reach files.old other.now;
      reach_after = F.reach files.new other.now;
      refusals = F.faults files.old other.now;
      refusals_after = F.faults files.new other.now;
    })) }
    ensures contents { (name : List ℕ) → F.contents files.new name ≡ F.contents files.old name }
    ensures count { (name : List ℕ) → F.faults files.old name ≤ F.faults files.new name }
    ensures others { (name : List ℕ) → name ≢ other.now → F.reach files.new name ≡ F.reach files.old name }
{
    match read_all(alloc, files, other, GREATEST_FILE) {
        Ok(text) => outcome_of(alloc, action, first, other.as_bytes(), text.as_slice()),
        Err(error) => unread(alloc, b"file 2\nfault long\n", error),
    }
}
