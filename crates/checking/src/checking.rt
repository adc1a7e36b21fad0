ghost use Rattle.std.specs.Prelude.{◌≡◌, IfOk};
ghost use Rattle.answering.specs.Outcomes.{answer_of, bytes_of};
ghost use Rattle.checking.specs.Outputs.{CheckOutput};
ghost use Rattle.checking.specs.Steps.{outcome_of};

use answering::{Outcome, Status};
use judging::{Judgement, judge};
use rsml_syntax::NoMemory;
use std::alloc::Global;

/// What `check` comes to, by what the text is judged to be.
pub fn judged(judgement: Judgement) -> Outcome
    ensures { result ≡ outcome_of judgement }
{
    match judgement {
        Judgement::TooLong => Outcome::Long,
        Judgement::Unread { line } => Outcome::Text {
            status: Status::SpecFault,
            text: line,
        },
        Judgement::Broken { line } => Outcome::Text {
            status: Status::SpecFault,
            text: line,
        },
        Judgement::Refused { report, .. } => Outcome::Text {
            status: Status::Refused,
            text: report,
        },
        Judgement::Certified { report, .. } => Outcome::Text {
            status: Status::Done,
            text: report,
        },
    }
}

/// What `check` comes to on a text.
pub fn check(alloc: Global, text: &[u8]) -> Result<Outcome, NoMemory>
    ensures { IfOk result (λ o. CheckOutput text.now (answer_of o) (bytes_of o)) }
{
    let judgement = judge(alloc, text)?;
    Ok(judged(judgement))
}
