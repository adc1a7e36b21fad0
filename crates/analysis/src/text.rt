//! The text of a report over what is found.
ghost use Rattle.std.specs.Prelude.{◌≡◌, IfOk, length, map};
ghost use Rattle.std.specs.List.{AllZip};
ghost use Rattle.rsml_meaning.specs.Findings.{IsVerdict};
ghost use Rattle.rsml_meaning.specs.Groups.{groups};
ghost use Rattle.finding_texts.specs.Verdicts.{verdict_of};
ghost use Rattle.text_writer.specs.Writes.{Writes};
ghost use Rattle.analysis.specs.Lines.{chain_part, lines};

use crate::chain_lines::put_chains;
use crate::clash_lines::put_clashes;
use crate::finding_lines::put_findings;
use crate::found::Found;
use crate::head::put_head;
use crate::last::put_last;
use crate::loop_lines::put_loops;
use elaborate::Machine;
use finding_texts::Findings;
use instance_texts::Texts;
use rsml_syntax::{Checked, NoMemory};
use std::alloc::Global;
use text_writer::{Draft, Writer};

// Writes what is found of the events.
fn put_events<W: Writer>(writer: &mut W, texts: &Texts<'_>, found: &Found<'_>)
    ensures { Writes (W.state writer.old) (W.text writer.old)
        (chain_part texts.now found.now.externals.now found.now.loops.now found.now.clashes.now)
        (W.state writer.new) (W.text writer.new) }
{
    put_chains(writer, texts, found.externals);
    put_loops(writer, texts, found.loops);
    put_clashes(writer, texts, found.clashes);
}

/// The text of the report on a specification over what is found of it, with so many refusals. The only error is out of memory.
pub fn text_of(
    alloc: Global,
    checked: &Checked,
    machine: &Machine<'_>,
    found: &Found<'_>,
    refusals: u64,
) -> Result<Vec<u8>, NoMemory>
    requires machine { machine.now.base.spec ≡ checked.now }
    requires groups { found.now.groups ≡ length (groups checked.now) }
    requires verdicts { AllZip (IsVerdict checked.now) (groups checked.now) (map verdict_of found.now.verdicts.now) }
    ensures { IfOk result (λ t. t.items ≡ lines checked.now found.now.externals.now found.now.loops.now
        found.now.clashes.now found.now.verdicts.now refusals) }
{
    let texts = Texts::build(alloc, checked)?;
    let mut findings = Findings::new(alloc, checked, machine)?;
    let mut draft = Draft::new(alloc);
    put_head(&mut draft, machine.name(), found.groups);
    put_events(&mut draft, &texts, found);
    put_findings(&mut draft, &mut findings, found.groups, found.verdicts);
    put_last(&mut draft, refusals);
    draft.finish()
}
