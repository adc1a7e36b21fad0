//! The report, from what is found.
ghost use Rattle.std.specs.Prelude.{◌≡◌, ◌↔◌, IfOk, IsTrue, map};
ghost use Rattle.std.specs.List.{AllZip};
ghost use Rattle.rsml_meaning.specs.Certified.{Certified};
ghost use Rattle.rsml_meaning.specs.Findings.{IsVerdict};
ghost use Rattle.rsml_meaning.specs.Groups.{groups};
ghost use Rattle.rsml_meaning.specs.Report.{IsReport};
ghost use Rattle.finding_texts.specs.Verdicts.{verdict_of};

use crate::found::Found;
use crate::refusals::refusals;
use crate::result::Report;
use crate::text::text_of;
use elaborate::Machine;
use event_chains::{Chains, none_found_is_none};
use finding_texts::Verdict;
use rsml_syntax::{Checked, NoMemory};
use std::alloc::Global;

/// Writes the report on a specification, over its machine, its chains, and what is found of each group. The only error is out of
/// memory.
pub fn report(
    alloc: Global,
    checked: &Checked,
    machine: &Machine<'_>,
    chains: &Chains<'_>,
    verdicts: &[Verdict],
) -> Result<Report, NoMemory>
    requires machine { machine.now.base.spec ≡ checked.now }
    requires chains { chains.now ≡ checked.now }
    requires verdicts { AllZip (IsVerdict checked.now) (groups checked.now) (map verdict_of verdicts.now) }
    ensures text { IfOk result (λ r. IsReport checked.now r.text.items) }
    ensures certified { IfOk result (λ r. IsTrue r.certified ↔ Certified checked.now) }
{
    let _ = checked.spec();
    let _ = machine.events();
    none_found_is_none();
    let found = Found {
        groups: machine.groups().count(),
        externals: chains.externals(),
        loops: chains.loops(),
        clashes: chains.clashes(),
        verdicts,
    };
    let refusals = refusals(&found);
    let text = text_of(alloc, checked, machine, &found, refusals)?;
    Ok(Report {
        text,
        certified: refusals == 0,
    })
}
