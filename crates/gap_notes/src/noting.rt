ghost use Rattle.std.specs.Prelude.{IfOk};
ghost use Rattle.source_notes.specs.Comments.{AreComments};

use crate::telling::tell_groups;
use elaborate::Machine;
use guard_encode::Encoder;
use instance_texts::Texts;
use level_order::plan_of;
use rsml_base::NoMemory;
use rsml_names::Globals;
use rsml_syntax::Checked;
use source_notes::Notes;
use std::alloc::Global;
use world_columns::GroupGaps;
use written_members::{Scene, Source};

/// A specification, the text that it was read from, the name of the file of that, and its machine.
#[derive(Clone, Copy)]
pub struct Subject<'s, 'a> {
    pub file: &'s [u8],
    pub text: &'s [u8],
    pub checked: &'a Checked,
    pub machine: &'s Machine<'a>,
    pub texts: &'s Texts<'a>,
}

/// Makes the diagrams of the machine, and tells the groups.
fn tell_subject(
    notes: &mut Notes<'_>,
    subject: Subject<'_, '_>,
    told: &[GroupGaps],
) -> Result<(), NoMemory> {
    let decls = subject.checked.spec().decls.as_slice();
    let globals = Globals::new(notes.alloc(), decls)?;
    let source = Source::new(notes.alloc(), subject.file, subject.text);
    let scene = Scene {
        machine: subject.machine,
        texts: subject.texts,
        globals: &globals,
        decls,
        source: &source,
    };
    let plan = plan_of(notes.alloc(), subject.machine)?;
    let mut encoder = Encoder::with(notes.alloc(), subject.machine, plan, 0)?;
    tell_groups(notes, &scene, &mut encoder, told)
}

/// Comment lines on the groups that are not sound.
fn notes_on(
    alloc: Global,
    subject: Subject<'_, '_>,
    told: &[GroupGaps],
) -> Result<Vec<u8>, NoMemory>
    ensures { IfOk result (λ v. AreComments v.items) }
{
    let mut notes = Notes::new(alloc, subject.file, subject.text);
    tell_subject(&mut notes, subject, told)?;
    notes.bytes()
}

/// The same, or a line that says that there is too little memory for it. The only error is out of memory.
pub fn gap_notes(
    alloc: Global,
    subject: Subject<'_, '_>,
    told: &[GroupGaps],
) -> Result<Vec<u8>, NoMemory>
    ensures { IfOk result (λ v. AreComments v.items) }
{
    match notes_on(alloc, subject, told) {
        Ok(notes) => Ok(notes),
        Err(NoMemory) => {
            let mut notes = Notes::new(alloc, subject.file, subject.text);
            notes.say("out of memory: nothing is explained");
            notes.bytes()
        }
    }
}
