ghost use Rattle.std.specs.Prelude.{◌≡◌, ◌≢◌, ◌≤◌, List, ℕ};
ghost use Rattle.rsml_meaning.specs.Certified.{Certified};
ghost use Rattle.following.specs.Steps as steps;
ghost use Rattle.following.specs.declared.event_action.EventAction.TheVariants as action;

use crate::ends::{LIMITS, status_of};
use answering::{Status, finish};
use cover_notes::{Subject, Watch, cover_notes};
use coverage::cover;
use rsml_io::{Files, Sink};
use rsml_syntax::NoMemory;
use simulator::SimEnd;
use std::alloc::Global;

/// Counts the run of an event file of a certified specification, writes what it covers or the line of the file's first fault, and comment
/// lines behind that.
pub fn explain_cover<F: Files, K: Sink>(
    alloc: Global,
    subject: Subject<'_, '_>,
    events: &str,
    files: &mut F,
    sink: &mut K,
) -> Status
    requires machine { subject.machine.now.base.spec ≡ subject.checked.now }
    requires certified { Certified subject.checked.now }
    ensures run { steps.HasRun action.ExplainCover subject.entry.checked.now (record {
      told = F.contents files.old events.now;
      reach = F.reach files.old events.now;
      reach_after = F.reach files.new events.now;
      refusals = F.faults files.old events.now;
      refusals_after = F.faults files.new events.now;
    }) (record {
      written = K.written sink.old;
      written_after = K.written sink.new;
      refusals = K.faults sink.old;
      refusals_after = K.faults sink.new;
    }) result }
    ensures contents { (name : List ℕ) → F.contents files.new name ≡ F.contents files.old name }
    ensures count { (name : List ℕ) → F.faults files.old name ≤ F.faults files.new name }
    ensures others { (name : List ℕ) → name ≢ events.now → F.reach files.new name ≡ F.reach files.old name }
    ensures sink_count { K.faults sink.old ≤ K.faults sink.new }
{
    let Subject {
        checked,
        machine,
        ..
    } = subject;
    let mut watch = match Watch::new(alloc, subject) {
        Ok(watch) => watch,
        Err(NoMemory) => return Status::NoMemory,
    };
    let counted = match cover(
        alloc, checked, machine, LIMITS, &mut watch, files, events, sink,
    ) {
        Ok(counted) => counted,
        Err(NoMemory) => return Status::NoMemory,
    };
    match counted.end {
        SimEnd::ReadFault => Status::ReadFault,
        SimEnd::WriteFault => Status::WriteFault,
        end => {
            let notes = cover_notes(alloc, subject, events.as_bytes(), &counted, &watch);
            finish(sink, notes.as_slice(), status_of(end))
        }
    }
}
