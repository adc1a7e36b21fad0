//! The comparison of two specifications.
ghost use Rattle.std.specs.Prelude.{◌≡◌, ◌++◌, IfOk};
ghost use Rattle.rsml_ground.specs.Grounded.{IsShort};
ghost use Rattle.rsml_meaning.specs.Certified.{Certified};
ghost use Rattle.spec_frames.specs.Frames.{HaveSameFrame};
ghost use Rattle.comparing.specs.Steps as spec;
ghost use Rattle.comparing.specs.Steps.{IsComparison};

use crate::difference_text::difference_text;
use analysis::{Analysed, Report, analysis};
use answering::Status;
use elaborate::{Machine, elaborate};
use finding_texts::Verdict;
use instance_texts::Texts;
use rsml_base::put;
use rsml_meaning::last_lines_tell_the_verdict;
use rsml_syntax::{Checked, NoMemory};
use same_spec::first_difference;
use spec_frames::same_frame;
use std::alloc::Global;

/// What the comparison of two specifications comes to.
#[derive(Drop)]
pub(crate) enum Comparison {
    /// Their frames differ.
    Unlike,
    /// They have one frame, and the first is not certified: its report, and what was found of each of its groups, in order.
    Uncertified {
        report: Vec<u8>,
        verdicts: Vec<Verdict>,
    },
    /// The first is certified, and a member differs: the text of the first difference.
    Different {
        text: Vec<u8>,
    },
    /// The first is certified, and no member differs.
    Same,
}

/// Compares two specifications of one frame, the first of which is certified, by their machines.
fn by_guards(
    alloc: Global,
    checked: &Checked,
    one: &Machine<'_>,
    two: &Machine<'_>,
) -> Result<Comparison, NoMemory>
    requires machine { one.now.base.spec ≡ checked.now }
    requires frame { HaveSameFrame checked.now two.now.base.spec }
    requires certified { Certified checked.now }
    ensures { IfOk result (IsComparison checked.now two.now.base.spec) }
{
    match first_difference(alloc, one, two)? {
        None => Ok(Comparison::Same),
        Some(found) => {
            let texts = Texts::build(alloc, checked)?;
            let text = difference_text(alloc, one, &texts, &found)?;
            Ok(Comparison::Different { text })
        }
    }
}

/// Compares two specifications of one frame, by their machines.
fn of_one_frame(
    alloc: Global,
    checked: &Checked,
    one: &Machine<'_>,
    two: &Machine<'_>,
) -> Result<Comparison, NoMemory>
    requires short { IsShort checked.now }
    requires machine { one.now.base.spec ≡ checked.now }
    requires frame { HaveSameFrame checked.now two.now.base.spec }
    ensures { IfOk result (IsComparison checked.now two.now.base.spec) }
{
    last_lines_tell_the_verdict();
    let _ = checked.spec();
    let Analysed { report, verdicts } = analysis(alloc, checked)?;
    let Report { text, certified } = report;
    if certified {
        by_guards(alloc, checked, one, two)
    } else {
        Ok(Comparison::Uncertified {
            report: text,
            verdicts,
        })
    }
}

/// Compares two specifications.
pub(crate) fn compared(alloc: Global, one: &Checked, two: &Checked) -> Result<Comparison, NoMemory>
    requires one { IsShort one.now }
    requires two { IsShort two.now }
    ensures { IfOk result (IsComparison one.now two.now) }
{
    let _ = one.spec();
    let _ = two.spec();
    let first = elaborate(alloc, one)?;
    let second = elaborate(alloc, two)?;
    if same_frame(first.names(), second.names()) {
        of_one_frame(alloc, one, &first, &second)
    } else {
        Ok(Comparison::Unlike)
    }
}

/// How `same` ends.
pub(crate) fn status_of(comparison: &Comparison) -> Status
    ensures { result ≡ spec.status_of comparison.now }
{
    match comparison {
        Comparison::Unlike => Status::Refused,
        Comparison::Uncertified { .. } => Status::Refused,
        Comparison::Different { .. } => Status::Refused,
        Comparison::Same => Status::Done,
    }
}

/// Bytes behind a line.
pub(crate) fn behind(alloc: Global, line: &[u8], bytes: &[u8]) -> Result<Vec<u8>, NoMemory>
    ensures { IfOk result (λ v. v.items ≡ line.now ++ bytes.now) }
{
    let mut text = Vec::from_slice(alloc, line)?;
    put(&mut text, bytes)?;
    Ok(text)
}

/// What `same` writes.
pub(crate) fn text_of(alloc: Global, comparison: Comparison) -> Result<Vec<u8>, NoMemory>
    ensures { IfOk result (λ v. v.items ≡ spec.text_of comparison) }
{
    match comparison {
        Comparison::Unlike => Ok(Vec::from_slice(alloc, b"differ frame\n")?),
        Comparison::Uncertified { report, .. } => behind(alloc, b"file 1\n", report.as_slice()),
        Comparison::Different { text } => Ok(text),
        Comparison::Same => Ok(Vec::from_slice(alloc, b"same\n")?),
    }
}
