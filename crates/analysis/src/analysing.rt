ghost use Rattle.std.specs.Prelude.{◌≡◌, ◌↔◌, IfOk, IsTrue};
ghost use Rattle.rsml_ground.specs.Grounded.{IsShort};
ghost use Rattle.rsml_meaning.specs.Certified.{Certified};
ghost use Rattle.rsml_meaning.specs.Report.{IsReport};
ghost use Rattle.analysis.specs.Verdicts.{AreVerdicts};

use crate::chains::chains_of;
use crate::reporting::report;
use crate::result::Report;
use elaborate::{Machine, elaborate};
use event_chains::Chains;
use finding_texts::Verdict;
use group_verdicts::verdicts;
use rsml_syntax::{Checked, NoMemory};
use std::alloc::Global;

/// What is found of a specification.
#[derive(Drop)]
pub struct Analysed {
    /// The report, and whether the specification is certified.
    pub report: Report,
    /// What is found of each of its groups, in order.
    pub verdicts: Vec<Verdict>,
}

/// Analyses a specification of at most 2,097,152 tokens: its chains of events, and each of its groups. The only error is
/// out of memory. `docs/formats.md` has the lines of the report.
pub fn analysis(alloc: Global, checked: &Checked) -> Result<Analysed, NoMemory>
    requires { IsShort checked.now }
    ensures text { IfOk result (λ a. IsReport checked.now a.report.text.items) }
    ensures certified { IfOk result (λ a. IsTrue a.report.certified ↔ Certified checked.now) }
    ensures verdicts { IfOk result (λ a. AreVerdicts checked.now a.verdicts.items) }
{
    let machine = elaborate(alloc, checked)?;
    with_machine(alloc, checked, &machine)
}

/// The analysis, over the machine.
fn with_machine(
    alloc: Global,
    checked: &Checked,
    machine: &Machine<'_>,
) -> Result<Analysed, NoMemory>
    requires { machine.now.base.spec ≡ checked.now }
    ensures text { IfOk result (λ a. IsReport checked.now a.report.text.items) }
    ensures certified { IfOk result (λ a. IsTrue a.report.certified ↔ Certified checked.now) }
    ensures verdicts { IfOk result (λ a. AreVerdicts checked.now a.verdicts.items) }
{
    let chains = chains_of(alloc, checked, machine)?;
    with_chains(alloc, checked, machine, &chains)
}

/// The analysis, over the machine and the chains.
fn with_chains(
    alloc: Global,
    checked: &Checked,
    machine: &Machine<'_>,
    chains: &Chains<'_>,
) -> Result<Analysed, NoMemory>
    requires machine { machine.now.base.spec ≡ checked.now }
    requires chains { chains.now ≡ checked.now }
    ensures text { IfOk result (λ a. IsReport checked.now a.report.text.items) }
    ensures certified { IfOk result (λ a. IsTrue a.report.certified ↔ Certified checked.now) }
    ensures verdicts { IfOk result (λ a. AreVerdicts checked.now a.verdicts.items) }
{
    let verdicts = verdicts(alloc, machine)?;
    let report = report(alloc, checked, machine, chains, verdicts.as_slice())?;
    Ok(Analysed { report, verdicts })
}
