ghost use Rattle.std.specs.Prelude.{IfOk};
ghost use Rattle.rsml_ground.specs.Grounded.{IsShort};
ghost use Rattle.source_notes.specs.Comments.{AreComments};
ghost use Rattle.answering.specs.Outcomes.{answer_of, bytes_of};
ghost use Rattle.explaining.specs.Outputs.{WithNotes};
ghost use Rattle.comparing.specs.Outputs.{PairOutput, SameOutput};
ghost use Rattle.comparing.specs.Steps.{IsComparison, IsExplainedUnfit};

use crate::comparison::{Comparison, behind, compared, status_of, text_of};
use answering::{Outcome, Status};
use checked_notes::checked_notes;
use explanations::fault_notes;
use frame_notes::{Side, difference_notes, frame_notes, same_notes};
use judging::{Kept, kept};
use rsml_base::put;
use rsml_syntax::NoMemory;
use std::alloc::Global;

/// Comment lines on what the comparison of two specifications comes to.
fn notes_on(
    alloc: Global,
    one: Side<'_>,
    two: Side<'_>,
    comparison: &Comparison,
) -> Result<Vec<u8>, NoMemory>
    requires one { IsShort one.checked.now }
    requires two { IsShort two.checked.now }
    requires comparison { IsComparison one.checked.now two.checked.now comparison.now }
    ensures { IfOk result (λ v. AreComments v.items) }
{
    match comparison {
        Comparison::Unlike => frame_notes(alloc, one, two),
        Comparison::Uncertified { verdicts, .. } => checked_notes(
            alloc,
            one.file,
            one.text,
            one.checked,
            Some(verdicts.as_slice()),
        ),
        Comparison::Different { .. } => difference_notes(alloc, one, two),
        Comparison::Same => same_notes(alloc, one, two),
    }
}

/// What `explain same` comes to on two specifications.
fn explain_checked(alloc: Global, one: Side<'_>, two: Side<'_>) -> Result<Outcome, NoMemory>
    requires one { IsShort one.checked.now }
    requires two { IsShort two.checked.now }
    ensures { IfOk result (λ o. WithNotes (PairOutput one.entry.checked.now two.entry.checked.now (answer_of o)) (bytes_of o)) }
{
    let comparison = compared(alloc, one.checked, two.checked)?;
    let status = status_of(&comparison);
    let notes = notes_on(alloc, one, two, &comparison)?;
    let mut text = text_of(alloc, comparison)?;
    put(&mut text, notes.as_slice())?;
    Ok(Outcome::Text { status, text })
}

/// The line that tells why a second text, of a file with this name, is no specification that can be compared, and comment lines behind it.
fn explained_unfit(
    alloc: Global,
    file: &[u8],
    other: &[u8],
    status: Status,
    line: &[u8],
) -> Result<Outcome, NoMemory>
    ensures { IfOk result (IsExplainedUnfit status line.now) }
{
    let notes = fault_notes(alloc, file, other)?;
    let mut text = behind(alloc, b"file 2\n", line)?;
    put(&mut text, notes.as_slice())?;
    Ok(Outcome::Text { status, text })
}

/// What `explain same` comes to on a first specification, with its text and the name of its file, and the text of a second in a file with
/// this name: what `same` does, and comment lines behind it.
pub fn explain_compare(
    alloc: Global,
    one: Side<'_>,
    other_file: &[u8],
    other: &[u8],
) -> Result<Outcome, NoMemory>
    requires { IsShort one.checked.now }
    ensures { IfOk result (λ o. WithNotes (SameOutput one.entry.checked.now other.now (answer_of o)) (bytes_of o)) }
{
    match kept(alloc, other)? {
        Kept::TooLong => {
            explained_unfit(alloc, other_file, other, Status::TooLong, b"fault long\n")
        }
        Kept::Unread { line } => explained_unfit(
            alloc,
            other_file,
            other,
            Status::SpecFault,
            line.as_slice(),
        ),
        Kept::Broken { line } => explained_unfit(
            alloc,
            other_file,
            other,
            Status::SpecFault,
            line.as_slice(),
        ),
        Kept::Checked(two) => explain_checked(
            alloc,
            one,
            Side {
                file: other_file,
                text: other,
                checked: &two,
            },
        ),
    }
}
