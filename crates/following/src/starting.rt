ghost use Rattle.std.specs.Prelude.{◌≡◌, ◌≢◌, ◌≤◌, IfOk, List, ℕ};
ghost use Rattle.judging.specs.Judgements.{IsJudgement};
ghost use Rattle.answering.specs.Outcomes.{answer_of, bytes_of};
ghost use Rattle.answering.specs.declared.status.Status.TheVariants as status;
ghost use Rattle.checking.specs.Steps.{outcome_of};
ghost use Rattle.following.specs.Steps as steps;

use crate::event_action::EventAction;
use answering::{GREATEST_FILE, Outcome, unread};
use checking::judged;
use explaining::explained;
use judging::{Judgement, judge};
use rsml_io::{Files, read_all};
use rsml_syntax::{Checked, NoMemory};
use std::alloc::Global;

/// What a command starts with.
#[derive(Drop)]
pub enum Start {
    /// The specification is certified; with its text.
    Certified { checked: Checked, text: Vec<u8> },
    /// It is not, or was not read: what `check` comes to.
    Stopped(Result<Outcome, NoMemory>),
}

/// What a command comes to on a text that is judged not to be certified.
fn stopped(
    alloc: Global,
    action: EventAction,
    file: &[u8],
    text: &[u8],
    refused: Judgement,
) -> Result<Outcome, NoMemory>
    requires is { IsJudgement text.now refused }
    requires refused { answer_of (outcome_of refused) ≢ status.Done }
    ensures { IfOk result (λ o. steps.StoppedOutput action text.now (answer_of o) (bytes_of o)) }
{
    match action {
        EventAction::Simulate | EventAction::Cover => Ok(judged(refused)),
        EventAction::ExplainCover => explained(alloc, file, text, refused),
    }
}

/// What a command starts with, by what the text is judged to be.
fn start_of(
    alloc: Global,
    action: EventAction,
    file: &[u8],
    text: Vec<u8>,
    judgement: Judgement,
) -> Start
    requires { IsJudgement text.items judgement }
    ensures { steps.Starts action text.items result }
{
    match judgement {
        Judgement::Certified { checked, .. } => Start::Certified { checked, text },
        refused => Start::Stopped(stopped(alloc, action, file, text.as_slice(), refused)),
    }
}

/// What a command starts with, on the text of a specification.
fn start_on(alloc: Global, action: EventAction, file: &[u8], text: Vec<u8>) -> Start
    ensures { steps.Starts action text.items result }
{
    match judge(alloc, text.as_slice()) {
        Ok(judgement) => start_of(alloc, action, file, text, judgement),
        Err(NoMemory) => Start::Stopped(Err(NoMemory)),
    }
}

/// What a command starts with, on the file of a specification.
pub fn start_in<F: Files>(alloc: Global, action: EventAction, file: &str, files: &mut F) -> Start
    ensures starts { steps.StartsOn action (record {
      told = F.contents files.old file.now;
      reach = F.reach files.old file.now;
      reach_after = F.reach files.new file.now;
      refusals = F.faults files.old file.now;
      refusals_after = F.faults files.new file.now;
    }) result }
    ensures contents { (name : List ℕ) → F.contents files.new name ≡ F.contents files.old name }
    ensures count { (name : List ℕ) → F.faults files.old name ≤ F.faults files.new name }
    ensures others { (name : List ℕ) → name ≢ file.now → F.reach files.new name ≡ F.reach files.old name }
{
    match read_all(alloc, files, file, GREATEST_FILE) {
        Ok(text) => start_on(alloc, action, file.as_bytes(), text),
        Err(error) => Start::Stopped(unread(error)),
    }
}
