ghost use Rattle.std.specs.Prelude.{◌≡◌, ◌≤◌, IfOk};
ghost use Rattle.rsml_ground.specs.Grounded.{IsShort};
ghost use Rattle.answering.specs.Outcomes.{answer_of, bytes_of};
ghost use Rattle.gapping.specs.Outputs.{GapsOutput, TellsGaps};
ghost use Rattle.gapping.specs.Outputs as spec;

use answering::{Outcome, Status};
use elaborate::elaborate;
use gap_tables::group_gaps;
use gap_texts::{gap_text, unsound};
use instance_texts::Texts;
use judging::{Kept, kept};
use rsml_syntax::{Checked, NoMemory};
use std::alloc::Global;
use world_columns::{GroupGaps, column_laws};

/// How `gaps` ends, by what is told of each group.
pub(crate) fn status_of(told: &[GroupGaps]) -> Status
    ensures { result ≡ spec.status_of told.now }
{
    if unsound(told) == 0 {
        Status::Done
    } else {
        Status::Refused
    }
}

/// What `gaps` comes to on a specification that keeps the rules and the limits.
fn gaps_of(alloc: Global, checked: &Checked, most: u32) -> Result<Outcome, NoMemory>
    requires short { IsShort checked.now }
    requires some { 1 ≤ most }
    ensures { IfOk result (λ o. TellsGaps checked.now most (answer_of o) (bytes_of o)) }
{
    column_laws();
    let machine = elaborate(alloc, checked)?;
    let texts = Texts::build(alloc, checked)?;
    let told = group_gaps(alloc, &machine, &texts, most)?;
    let text = gap_text(alloc, &machine, &texts, told.as_slice())?;
    Ok(Outcome::Text {
        status: status_of(told.as_slice()),
        text,
    })
}

/// The line that tells why a text is no specification that can be looked at.
fn fault(line: Vec<u8>) -> Outcome
    ensures { result ≡ spec.fault_of line }
{
    Outcome::Text {
        status: Status::SpecFault,
        text: line,
    }
}

/// What `gaps` comes to on a text, with at most so many columns for each group.
pub fn gaps(alloc: Global, text: &[u8], most: u32) -> Result<Outcome, NoMemory>
    requires { 1 ≤ most }
    ensures { IfOk result (λ o. GapsOutput most text.now (answer_of o) (bytes_of o)) }
{
    match kept(alloc, text)? {
        Kept::TooLong => Ok(Outcome::Long),
        Kept::Unread { line } => Ok(fault(line)),
        Kept::Broken { line } => Ok(fault(line)),
        Kept::Checked(checked) => gaps_of(alloc, &checked, most),
    }
}
