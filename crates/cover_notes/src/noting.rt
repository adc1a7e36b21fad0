ghost use Rattle.std.specs.Prelude.{IfOk};
ghost use Rattle.source_notes.specs.Comments.{AreComments};

use crate::covered::tell_covered;
use crate::faults::tell_fault;
use crate::parts::Part;
use crate::subject::Subject;
use crate::watch::Watch;
use coverage::{CountedFile, Counts};
use instance_texts::Texts;
use rsml_base::NoMemory;
use rsml_names::Globals;
use simulator::SimEnd;
use source_notes::Notes;
use std::alloc::Global;
use written_members::{Scene, Source};

/// Tells what an event file does not cover that was read to its end.
fn tell_subject(
    notes: &mut Notes<'_>,
    subject: Subject<'_, '_>,
    counts: &Counts<'_, '_>,
    parts: &[Part<'_>],
) -> Result<(), NoMemory> {
    let decls = subject.checked.spec().decls.as_slice();
    let globals = Globals::new(notes.alloc(), decls)?;
    let texts = Texts::build(notes.alloc(), subject.checked)?;
    let source = Source::new(notes.alloc(), subject.source.file, notes.text());
    let scene = Scene {
        machine: subject.machine,
        texts: &texts,
        globals: &globals,
        decls,
        source: &source,
    };
    tell_covered(notes, &scene, counts, parts)
}

/// Comment lines on what was counted of an event file of this name, by how that ended, and on what was seen of macros and functions.
fn notes_on(
    alloc: Global,
    subject: Subject<'_, '_>,
    events: &[u8],
    counted: &CountedFile<'_, '_>,
    parts: &[Part<'_>],
) -> Result<Vec<u8>, NoMemory>
    ensures { IfOk result (λ v. AreComments v.items) }
{
    if let SimEnd::Ended { .. } = counted.end {
        let mut notes = Notes::new(alloc, subject.source.file, subject.source.text);
        tell_subject(&mut notes, subject, &counted.counts, parts)?;
        return notes.bytes();
    }
    let mut notes = Notes::new(alloc, events, counted.line());
    let decls = subject.checked.spec().decls.as_slice();
    tell_fault(&mut notes, decls, events, counted.end);
    notes.bytes()
}

/// A line that says that there is too little memory for more; none where memory is refused even for that.
#[tactic(auto, using(crate::proofs::CommentLemmas::no_comments))]
fn refusal(alloc: Global) -> Vec<u8>
    ensures { AreComments result.items }
{
    let mut notes = Notes::new(alloc, b"", b"");
    notes.say("out of memory: nothing is explained");
    match notes.bytes() {
        Ok(line) => line,
        Err(NoMemory) => Vec::new(alloc),
    }
}

/// Comment lines on what was counted of an event file of this name, of a specification, and on what a watch saw that heard its events: on
/// the first fault of the file, or on what its run does not cover. Where memory for them is refused, one line says so, or none.
pub fn cover_notes(
    alloc: Global,
    subject: Subject<'_, '_>,
    events: &[u8],
    counted: &CountedFile<'_, '_>,
    watch: &Watch<'_, '_>,
) -> Vec<u8>
    ensures { AreComments result.items }
{
    match notes_on(alloc, subject, events, counted, watch.parts()) {
        Ok(notes) => notes,
        Err(NoMemory) => refusal(alloc),
    }
}
