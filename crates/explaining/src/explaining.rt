ghost use Rattle.std.specs.Prelude.{◌≡◌, IfOk};
ghost use Rattle.rsml_ground.specs.Grounded.{IsShort};
ghost use Rattle.rsml_syntax.specs.grammar.WellFormed.{WellFormed};
ghost use Rattle.source_notes.specs.Comments.{AreComments};
ghost use Rattle.judging.specs.Judgements.{IsJudgement};
ghost use Rattle.answering.specs.Outcomes.{answer_of, bytes_of};
ghost use Rattle.checking.specs.Steps.{outcome_of};
ghost use Rattle.explaining.specs.Outputs.{ExplainOutput};
ghost use Rattle.explaining.specs.Steps.{IsFollowed};

use answering::Outcome;
use checked_notes::checked_notes;
use checking::judged;
use explanations::fault_notes;
use judging::{Judgement, ReadText, judge, read_text};
use rsml_base::put;
use rsml_lexer::GREATEST_TEXT;
use rsml_rules::check_rules;
use rsml_syntax::{NoMemory, Spec};
use source_notes::Notes;
use std::alloc::Global;

/// The bytes of a file, and its name.
#[derive(Clone, Copy)]
struct Source<'t> {
    file: &'t [u8],
    text: &'t [u8],
}

/// No comment lines.
fn no_notes(alloc: Global, source: Source<'_>) -> Result<Vec<u8>, NoMemory>
    ensures { IfOk result (λ v. AreComments v.items) }
{
    Notes::new(alloc, source.file, source.text).bytes()
}

/// Comment lines on what a text is judged to be.
fn notes_on(alloc: Global, source: Source<'_>, judgement: &Judgement) -> Result<Vec<u8>, NoMemory>
    requires { IsJudgement source.text.now judgement.now }
    ensures { IfOk result (λ v. AreComments v.items) }
{
    match judgement {
        Judgement::TooLong => no_notes(alloc, source),
        Judgement::Unread { .. } => fault_notes(alloc, source.file, source.text),
        Judgement::Broken { .. } => fault_notes(alloc, source.file, source.text),
        Judgement::Refused {
            checked,
            verdicts,
            ..
        } => checked_notes(
            alloc,
            source.file,
            source.text,
            checked,
            Some(verdicts.as_slice()),
        ),
        Judgement::Certified { checked, .. } => checked_notes(
            alloc,
            source.file,
            source.text,
            checked,
            Some(&[]),
        ),
    }
}

/// The same, or a line that says that there is too little memory for it.
fn notes_for(alloc: Global, source: Source<'_>, judgement: &Judgement) -> Result<Vec<u8>, NoMemory>
    requires { IsJudgement source.text.now judgement.now }
    ensures { IfOk result (λ v. AreComments v.items) }
{
    match notes_on(alloc, source, judgement) {
        Ok(notes) => Ok(notes),
        Err(NoMemory) => {
            let mut notes = Notes::new(alloc, source.file, source.text);
            notes.say("out of memory: nothing is explained");
            notes.bytes()
        }
    }
}

/// What is written, with more behind it.
fn followed_by(outcome: Outcome, notes: &[u8]) -> Result<Outcome, NoMemory>
    ensures { IfOk result (IsFollowed outcome notes.now) }
{
    match outcome {
        Outcome::Text { status, mut text } => {
            put(&mut text, notes)?;
            Ok(Outcome::Text { status, text })
        }
        Outcome::Unread => Ok(Outcome::Unread),
        Outcome::Long => Ok(Outcome::Long),
    }
}

/// What `check` comes to on a text that is judged to be this, and comment lines behind it, which name this file.
pub fn explained(
    alloc: Global,
    file: &[u8],
    text: &[u8],
    judgement: Judgement,
) -> Result<Outcome, NoMemory>
    requires { IsJudgement text.now judgement }
    ensures output { IfOk result (λ o. ExplainOutput text.now (answer_of o) (bytes_of o)) }
    ensures status { IfOk result (λ o. answer_of o ≡ answer_of (outcome_of judgement)) }
{
    let notes = notes_for(alloc, Source { file, text }, &judgement)?;
    followed_by(judged(judgement), notes.as_slice())
}

/// What `explain` comes to on the text of a file with this name.
pub fn explain(alloc: Global, file: &[u8], text: &[u8]) -> Result<Outcome, NoMemory>
    ensures { IfOk result (λ o. ExplainOutput text.now (answer_of o) (bytes_of o)) }
{
    let judgement = judge(alloc, text)?;
    explained(alloc, file, text, judgement)
}

/// Comment lines on a specification for which memory was refused; none where it breaks a rule or a limit.
fn specification_notes(alloc: Global, source: Source<'_>, spec: Spec) -> Result<Vec<u8>, NoMemory>
    requires formed { WellFormed spec }
    requires short { IsShort spec }
    ensures { IfOk result (λ v. AreComments v.items) }
{
    match check_rules(alloc, spec) {
        Ok(checked) => checked_notes(alloc, source.file, source.text, &checked, None),
        Err(_) => no_notes(alloc, source),
    }
}

/// Where `explain` ended with out of memory on the text of a file with this name: comment lines on the first group for which
/// memory is refused. None where the text reads as no specification, or breaks a rule or a limit.
pub fn memory_notes(alloc: Global, file: &[u8], text: &[u8]) -> Result<Vec<u8>, NoMemory>
    ensures { IfOk result (λ v. AreComments v.items) }
{
    let source = Source { file, text };
    if text.len() > GREATEST_TEXT {
        return no_notes(alloc, source);
    }
    match read_text(alloc, text)? {
        ReadText::Specification(spec) => specification_notes(alloc, source, spec),
        ReadText::Fault(_) => no_notes(alloc, source),
    }
}
