ghost use Rattle.std.specs.Prelude.{IfOk};
ghost use Rattle.rsml_ground.specs.Grounded.{IsShort};
ghost use Rattle.answering.specs.Outcomes.{answer_of, bytes_of};
ghost use Rattle.comparing.specs.Outputs.{PairOutput, SameOutput};
ghost use Rattle.comparing.specs.Steps.{IsUnfit};

use crate::comparison::{behind, compared, status_of, text_of};
use answering::{Outcome, Status};
use judging::{Kept, kept};
use rsml_syntax::{Checked, NoMemory};
use std::alloc::Global;

/// What `same` comes to on two specifications.
fn compare_checked(alloc: Global, one: &Checked, two: &Checked) -> Result<Outcome, NoMemory>
    requires one { IsShort one.now }
    requires two { IsShort two.now }
    ensures { IfOk result (λ o. PairOutput one.now two.now (answer_of o) (bytes_of o)) }
{
    let comparison = compared(alloc, one, two)?;
    let status = status_of(&comparison);
    let text = text_of(alloc, comparison)?;
    Ok(Outcome::Text { status, text })
}

/// The line that tells why a second text is no specification that can be compared.
fn unfit(alloc: Global, status: Status, line: &[u8]) -> Result<Outcome, NoMemory>
    ensures { IfOk result (IsUnfit status line.now) }
{
    let text = behind(alloc, b"file 2\n", line)?;
    Ok(Outcome::Text { status, text })
}

/// What `same` comes to on a first specification, and the text of a second.
pub fn compare(alloc: Global, one: &Checked, other: &[u8]) -> Result<Outcome, NoMemory>
    requires { IsShort one.now }
    ensures { IfOk result (λ o. SameOutput one.now other.now (answer_of o) (bytes_of o)) }
{
    match kept(alloc, other)? {
        Kept::TooLong => unfit(alloc, Status::TooLong, b"fault long\n"),
        Kept::Unread { line } => unfit(alloc, Status::SpecFault, line.as_slice()),
        Kept::Broken { line } => unfit(alloc, Status::SpecFault, line.as_slice()),
        Kept::Checked(two) => compare_checked(alloc, one, &two),
    }
}
