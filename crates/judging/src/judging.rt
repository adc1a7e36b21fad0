ghost use Rattle.std.specs.Prelude.{◌≡◌, IfOk};
ghost use Rattle.rsml_ground.specs.Grounded.{IsShort};
ghost use Rattle.judging.specs.Judgements.{IsJudged, IsJudgement};

use crate::keeping::kept;
use crate::kept_text::Kept;
use analysis::{Analysed, Report, analysis};
use finding_texts::Verdict;
use rsml_meaning::{certified_specifications_are_deterministic, last_lines_tell_the_verdict};
use rsml_syntax::{Checked, NoMemory};
use std::alloc::Global;

/// What the bytes of a specification are. `docs/formats.md` has the lines and the report.
#[derive(Drop)]
pub enum Judgement {
    /// They are more than 1,048,576.
    TooLong,
    /// They read as no specification; the line tells their first fault.
    Unread {
        line: Vec<u8>,
    },
    /// The specification breaks a rule or a limit; the line tells the lowest.
    Broken {
        line: Vec<u8>,
    },
    /// The specification is not certified; the report tells what was found. The specification is given back with its report, and
    /// with what was found of each of its groups, in order.
    Refused {
        report: Vec<u8>,
        checked: Checked,
        verdicts: Vec<Verdict>,
    },
    /// The specification is certified. It is given back with its report.
    Certified {
        report: Vec<u8>,
        checked: Checked,
    },
}

/// That the specification is certified.
fn certificate(report: Vec<u8>, checked: Checked) -> Judgement
    ensures { result ≡ Judgement.Certified report checked }
{
    Judgement::Certified { report, checked }
}

/// That the specification is not certified.
fn refusal(report: Vec<u8>, checked: Checked, verdicts: Vec<Verdict>) -> Judgement
    ensures { result ≡ Judgement.Refused report checked verdicts }
{
    Judgement::Refused {
        report,
        checked,
        verdicts,
    }
}

/// Judges a specification that keeps the rules and the limits.
fn analyse(alloc: Global, checked: Checked) -> Result<Judgement, NoMemory>
    requires { IsShort checked }
    ensures { IfOk result (IsJudged checked) }
{
    certified_specifications_are_deterministic();
    last_lines_tell_the_verdict();
    let _ = checked.spec();
    let Analysed { report, verdicts } = analysis(alloc, &checked)?;
    let Report { text, certified } = report;
    if certified {
        Ok(certificate(text, checked))
    } else {
        Ok(refusal(text, checked, verdicts))
    }
}

/// Judges the bytes of a specification, whatever they are: whether they read, keep the rules and the
/// limits, and are certified. The only error is out of memory.
pub fn judge(alloc: Global, text: &[u8]) -> Result<Judgement, NoMemory>
    ensures { IfOk result (IsJudgement text.now) }
{
    match kept(alloc, text)? {
        Kept::TooLong => Ok(Judgement::TooLong),
        Kept::Unread { line } => Ok(Judgement::Unread { line }),
        Kept::Broken { line } => Ok(Judgement::Broken { line }),
        Kept::Checked(checked) => analyse(alloc, checked),
    }
}
