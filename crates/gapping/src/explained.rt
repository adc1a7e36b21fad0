ghost use Rattle.std.specs.Prelude.{◌≤◌, IfOk};
ghost use Rattle.rsml_ground.specs.Grounded.{IsShort};
ghost use Rattle.answering.specs.Outcomes.{answer_of, bytes_of};
ghost use Rattle.explaining.specs.Outputs.{WithNotes};
ghost use Rattle.gapping.specs.Outputs.{TellsGaps};
ghost use Rattle.gapping.specs.Explained.{ExplainGapsOutput, IsExplainedFault};

use crate::gapping::status_of;
use answering::{Outcome, Status};
use elaborate::elaborate;
use explanations::fault_notes;
use gap_notes::{Subject, gap_notes};
use gap_tables::group_gaps;
use gap_texts::gap_text;
use instance_texts::Texts;
use judging::{Kept, kept};
use rsml_base::put;
use rsml_syntax::{Checked, NoMemory};
use std::alloc::Global;
use world_columns::column_laws;

/// The bytes of a file, and its name.
#[derive(Clone, Copy)]
struct Source<'t> {
    file: &'t [u8],
    text: &'t [u8],
}

/// What `explain gaps` comes to on a specification that keeps the rules and the limits.
fn explained_of(
    alloc: Global,
    source: Source<'_>,
    checked: &Checked,
    most: u32,
) -> Result<Outcome, NoMemory>
    requires short { IsShort checked.now }
    requires some { 1 ≤ most }
    ensures { IfOk result (λ o. WithNotes (TellsGaps checked.now most (answer_of o)) (bytes_of o)) }
{
    column_laws();
    let machine = elaborate(alloc, checked)?;
    let texts = Texts::build(alloc, checked)?;
    let told = group_gaps(alloc, &machine, &texts, most)?;
    let mut text = gap_text(alloc, &machine, &texts, told.as_slice())?;
    let subject = Subject {
        file: source.file,
        text: source.text,
        checked,
        machine: &machine,
        texts: &texts,
    };
    let notes = gap_notes(alloc, subject, told.as_slice())?;
    put(&mut text, notes.as_slice())?;
    Ok(Outcome::Text {
        status: status_of(told.as_slice()),
        text,
    })
}

/// The line that tells why a text is no specification that can be looked at, and comment lines behind it.
fn explained_fault(alloc: Global, source: Source<'_>, line: Vec<u8>) -> Result<Outcome, NoMemory>
    ensures { IfOk result (IsExplainedFault line.items) }
{
    let mut text = line;
    let notes = fault_notes(alloc, source.file, source.text)?;
    put(&mut text, notes.as_slice())?;
    Ok(Outcome::Text {
        status: Status::SpecFault,
        text,
    })
}

/// What `explain gaps` comes to on the text of a file with this name: what `gaps` does, with at most so many columns for each group, and
/// comment lines behind it.
pub fn explain_gaps(alloc: Global, file: &[u8], text: &[u8], most: u32) -> Result<Outcome, NoMemory>
    requires { 1 ≤ most }
    ensures { IfOk result (λ o. ExplainGapsOutput most text.now (answer_of o) (bytes_of o)) }
{
    let source = Source { file, text };
    match kept(alloc, text)? {
        Kept::TooLong => Ok(Outcome::Long),
        Kept::Unread { line } => explained_fault(alloc, source, line),
        Kept::Broken { line } => explained_fault(alloc, source, line),
        Kept::Checked(checked) => explained_of(alloc, source, &checked, most),
    }
}
