//! All that is told of a specification. Each value that lives while it is told is made by a function of its own.
ghost use Rattle.std.specs.Prelude.{◌≡◌, IfOk};
ghost use Rattle.rsml_ground.specs.Grounded.{IsShort};
ghost use Rattle.source_notes.specs.Comments.{AreComments};

use crate::chains::chains_of;
use crate::tell_enabled;
use elaborate::{Machine, elaborate};
use event_chains::Chains;
use finding_notes::{tell_findings, tell_refused};
use finding_texts::Verdict;
use group_verdicts::refused_group;
use guard_encode::Encoder;
use instance_texts::Texts;
use level_order::plan_of;
use rsml_names::Globals;
use rsml_syntax::{Checked, NoMemory};
use source_notes::Notes;
use specification_notes::tell_unused;
use std::alloc::Global;
use table_notes::NODES;
use written_members::{Scene, Source, tell_clashes, tell_loops};

/// A specification that was read from a file of this name, and what was found of its groups, unless memory was refused for that.
#[derive(Clone, Copy)]
struct Subject<'s> {
    file: &'s [u8],
    checked: &'s Checked,
    verdicts: Option<&'s [Verdict]>,
}

/// Tells for which group memory is refused.
fn tell_refusal(notes: &mut Notes<'_>, scene: &Scene<'_, '_>) -> Result<(), NoMemory> {
    match refused_group(notes.alloc(), scene.machine) {
        Some(group) => tell_refused(notes, scene, group),
        None => Ok(()),
    }
}

/// Tells all, in order.
fn tell_all(
    notes: &mut Notes<'_>,
    subject: Subject<'_>,
    verdicts: &[Verdict],
    scene: &Scene<'_, '_>,
    chains: &Chains<'_>,
    encoder: &mut Encoder<'_, '_>,
) -> Result<(), NoMemory> {
    tell_loops(notes, scene, chains.loops())?;
    tell_clashes(notes, scene, chains.clashes())?;
    encoder.limit(NODES);
    tell_findings(notes, scene, encoder, verdicts)?;
    tell_unused(notes, subject.checked.spec(), scene.globals)?;
    encoder.limit(NODES);
    tell_enabled(notes, scene.machine, scene.globals, encoder)
}

/// Makes the diagrams of the machine.
fn tell_scene(
    notes: &mut Notes<'_>,
    subject: Subject<'_>,
    scene: &Scene<'_, '_>,
    chains: &Chains<'_>,
) -> Result<(), NoMemory> {
    let Some(verdicts) = subject.verdicts else {
        return tell_refusal(notes, scene);
    };
    let plan = plan_of(notes.alloc(), scene.machine)?;
    let mut encoder = Encoder::with(notes.alloc(), scene.machine, plan, 0)?;
    tell_all(notes, subject, verdicts, scene, chains, &mut encoder)
}

/// Makes the text without comments.
fn tell_named<'a>(
    notes: &mut Notes<'_>,
    subject: Subject<'a>,
    machine: &Machine<'a>,
    chains: &Chains<'_>,
    globals: &Globals<'a>,
    texts: &Texts<'a>,
) -> Result<(), NoMemory> {
    let source = Source::new(notes.alloc(), subject.file, notes.text());
    let scene = Scene {
        machine,
        texts,
        globals,
        decls: subject.checked.spec().decls.as_slice(),
        source: &source,
    };
    tell_scene(notes, subject, &scene, chains)
}

/// Makes the names of the instances.
fn tell_known<'a>(
    notes: &mut Notes<'_>,
    subject: Subject<'a>,
    machine: &Machine<'a>,
    chains: &Chains<'_>,
    globals: &Globals<'a>,
) -> Result<(), NoMemory> {
    let texts = Texts::build(notes.alloc(), subject.checked)?;
    tell_named(notes, subject, machine, chains, globals, &texts)
}

/// Makes the table of the global names.
fn tell_chained<'a>(
    notes: &mut Notes<'_>,
    subject: Subject<'a>,
    machine: &Machine<'a>,
    chains: &Chains<'_>,
) -> Result<(), NoMemory> {
    let globals = Globals::new(notes.alloc(), subject.checked.spec().decls.as_slice())?;
    tell_known(notes, subject, machine, chains, &globals)
}

/// Makes the chains of events.
fn tell_machine(
    notes: &mut Notes<'_>,
    subject: Subject<'_>,
    machine: &Machine<'_>,
) -> Result<(), NoMemory>
    requires { machine.now.base.spec ≡ subject.checked.now }
{
    let chains = chains_of(notes.alloc(), subject.checked, machine)?;
    tell_chained(notes, subject, machine, &chains)
}

/// Makes the machine.
fn tell_subject(notes: &mut Notes<'_>, subject: Subject<'_>) -> Result<(), NoMemory>
    requires { IsShort subject.checked.now }
{
    let machine = elaborate(notes.alloc(), subject.checked)?;
    tell_machine(notes, subject, &machine)
}

/// Comment lines on a specification of at most 2,097,152 tokens that was read from this text, in a file of this name: on the events
/// that loop, on those that clash, and on each group that is not sound, by what was found of the groups; and then notes on what is not
/// used, entered or reacted to, and on what is never enabled. Where nothing was found, since memory was refused, on the first group for
/// which it is. The only error is out of memory.
pub fn checked_notes(
    alloc: Global,
    file: &[u8],
    text: &[u8],
    checked: &Checked,
    verdicts: Option<&[Verdict]>,
) -> Result<Vec<u8>, NoMemory>
    requires { IsShort checked.now }
    ensures { IfOk result (λ v. AreComments v.items) }
{
    let mut notes = Notes::new(alloc, file, text);
    let subject = Subject {
        file,
        checked,
        verdicts,
    };
    tell_subject(&mut notes, subject)?;
    notes.bytes()
}
