ghost use Rattle.std.specs.Prelude.{◌≡◌, ◌≢◌, ◌≤◌, IfOk, List, ℕ};
ghost use Rattle.judging.specs.Judgements.{IsKept};
ghost use Rattle.comparing.specs.Outputs as comparing;
ghost use Rattle.pairing.specs.Steps as steps;

use crate::pair_action::PairAction;
use crate::unread::{long, unread};
use answering::{GREATEST_FILE, Outcome, Status};
use explanations::fault_notes;
use judging::{Kept, kept};
use rsml_base::put;
use rsml_io::{Files, read_all};
use rsml_syntax::{Checked, NoMemory};
use std::alloc::Global;

/// What a command starts with.
#[derive(Drop)]
pub enum Start {
    /// The first text is kept: it reads as a specification that keeps the rules and the limits; with the text.
    Kept { checked: Checked, text: Vec<u8> },
    /// It is not, or was not read: what the command comes to.
    Stopped(Result<Outcome, NoMemory>),
}

/// Comment lines on the fault of a first text, where the action writes some.
fn notes_on(
    alloc: Global,
    action: PairAction,
    file: &[u8],
    text: &[u8],
) -> Result<Vec<u8>, NoMemory>
    ensures { IfOk result (λ v. steps.AreNotes action v.items) }
{
    match action {
        PairAction::Prove => Ok(Vec::new(alloc)),
        PairAction::ExplainProve => fault_notes(alloc, file, text),
        PairAction::Same => Ok(Vec::new(alloc)),
        PairAction::ExplainSame => fault_notes(alloc, file, text),
    }
}

/// A line behind one that tells the first file.
fn of_first(alloc: Global, line: &[u8]) -> Result<Vec<u8>, NoMemory>
    ensures { IfOk result (λ told. told.items ≡ comparing.of_first line.now) }
{
    let mut told = Vec::from_slice(alloc, b"file 1\n")?;
    put(&mut told, line)?;
    Ok(told)
}

/// What a command comes to on a first text whose fault this line tells.
fn faulty(
    alloc: Global,
    action: PairAction,
    file: &[u8],
    text: &[u8],
    line: Vec<u8>,
) -> Result<Outcome, NoMemory>
    ensures { IfOk result (steps.IsFault action line.items) }
{
    let notes = notes_on(alloc, action, file, text)?;
    let mut told = of_first(alloc, line.as_slice())?;
    put(&mut told, notes.as_slice())?;
    Ok(Outcome::Text {
        status: Status::SpecFault,
        text: told,
    })
}

/// What a command starts with, by what the first text is.
fn start_of(alloc: Global, action: PairAction, file: &[u8], text: Vec<u8>, kept: Kept) -> Start
    requires { IsKept text.items kept }
    ensures { steps.Starts action text.items result }
{
    match kept {
        Kept::TooLong => Start::Stopped(long(alloc, b"file 1\nfault long\n")),
        Kept::Unread { line } => Start::Stopped(faulty(alloc, action, file, text.as_slice(), line)),
        Kept::Broken { line } => Start::Stopped(faulty(alloc, action, file, text.as_slice(), line)),
        Kept::Checked(checked) => Start::Kept { checked, text },
    }
}

/// What a command starts with, on the first text.
fn start_on(alloc: Global, action: PairAction, file: &[u8], text: Vec<u8>) -> Start
    ensures { steps.Starts action text.items result }
{
    match kept(alloc, text.as_slice()) {
        Ok(kept) => start_of(alloc, action, file, text, kept),
        Err(NoMemory) => Start::Stopped(Err(NoMemory)),
    }
}

/// What a command starts with, on the first file.
pub fn start_in<F: Files>(alloc: Global, action: PairAction, file: &str, files: &mut F) -> Start
    ensures starts { steps.StartsOn action (record {
      told = F.contents files.old file.now;
      reach = F.reach files.old file.now;
      reach_after = F.reach files.new file.now;
      refusals = F.faults files.old file.now;
      refusals_after = F.faults files.new file.now;
    }) result }
    ensures contents { (name : List ℕ) → F.contents files.new name ≡ F.contents files.old name }
    ensures count { (name : List ℕ) → F.faults files.old name ≤ F.faults files.new name }
    ensures others { (name : List ℕ) → name ≢ file.now → F.reach files.new name ≡ F.reach files.old name }
{
    match read_all(alloc, files, file, GREATEST_FILE) {
        Ok(text) => start_on(alloc, action, file.as_bytes(), text),
        Err(error) => Start::Stopped(unread(alloc, b"file 1\nfault long\n", error)),
    }
}
