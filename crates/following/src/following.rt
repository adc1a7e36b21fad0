ghost use Rattle.std.specs.Prelude.{◌≡◌, ◌≢◌, ◌≤◌, List, ℕ};
ghost use Rattle.rsml_ground.specs.Grounded.{IsShort};
ghost use Rattle.rsml_meaning.specs.Certified.{Certified};
ghost use Rattle.following.specs.Steps as steps;

use crate::ends::{LIMITS, status_of};
use crate::event_action::EventAction;
use crate::noting::explain_cover;
use crate::starting::{Start, start_in};
use answering::{Status, answer};
use cover_notes::{Source, Subject};
use coverage::{Deaf, cover};
use elaborate::elaborate;
use rsml_io::{Files, Sink};
use rsml_syntax::{Checked, NoMemory};
use simulator::Simulator;
use std::alloc::Global;

/// Follows an event file by a certified specification.
fn follow_certified<F: Files, K: Sink>(
    alloc: Global,
    action: EventAction,
    source: Source<'_>,
    checked: &Checked,
    events: &str,
    files: &mut F,
    sink: &mut K,
) -> Status
    requires certified { Certified checked.now }
    requires short { IsShort checked.now }
    ensures run { steps.HasRun action checked.now (record {
      told = F.contents files.old events.now;
      reach = F.reach files.old events.now;
      reach_after = F.reach files.new events.now;
      refusals = F.faults files.old events.now;
      refusals_after = F.faults files.new events.now;
    }) (record {
      written = K.written sink.old;
      written_after = K.written sink.new;
      refusals = K.faults sink.old;
      refusals_after = K.faults sink.new;
    }) result }
    ensures contents { (name : List ℕ) → F.contents files.new name ≡ F.contents files.old name }
    ensures count { (name : List ℕ) → F.faults files.old name ≤ F.faults files.new name }
    ensures others { (name : List ℕ) → name ≢ events.now → F.reach files.new name ≡ F.reach files.old name }
    ensures sink_count { K.faults sink.old ≤ K.faults sink.new }
{
    let machine = match elaborate(alloc, checked) {
        Ok(machine) => machine,
        Err(NoMemory) => return Status::NoMemory,
    };
    match action {
        EventAction::Simulate => match Simulator::new(alloc, checked, &machine, LIMITS) {
            Ok(simulator) => status_of(simulator.run(files, events, sink)),
            Err(NoMemory) => Status::NoMemory,
        },
        EventAction::Cover => {
            let mut deaf = Deaf;
            match cover(
                alloc, checked, &machine, LIMITS, &mut deaf, files, events, sink,
            ) {
                Ok(counted) => status_of(counted.end),
                Err(NoMemory) => Status::NoMemory,
            }
        }
        EventAction::ExplainCover => {
            let subject = Subject {
                source,
                checked,
                machine: &machine,
            };
            explain_cover(alloc, subject, events, files, sink)
        }
    }
}

/// Reads a specification's file, and follows an event file by it. This is not read where the specification is not certified: then what
/// `check` comes to is written.
pub fn follow<F: Files, K: Sink>(
    alloc: Global,
    action: EventAction,
    file: &str,
    events: &str,
    files: &mut F,
    sink: &mut K,
) -> Status
    ensures followed { steps.HasFollowed action file.now events.now (λ name. record {
      told = F.contents files.old name;
      reach = F.reach files.old name;
      reach_after = F.reach files.new name;
      refusals = F.faults files.old name;
      refusals_after = F.faults files.new name;
    }) (record {
      written = K.written sink.old;
      written_after = K.written sink.new;
      refusals = K.faults sink.old;
      refusals_after = K.faults sink.new;
    }) result }
    ensures contents { (name : List ℕ) → F.contents files.new name ≡ F.contents files.old name }
    ensures count { (name : List ℕ) → F.faults files.old name ≤ F.faults files.new name }
    ensures others { (name : List ℕ) → name ≢ file.now → name ≢ events.now → F.reach files.new name ≡ F.reach files.old name }
    ensures sink_count { K.faults sink.old ≤ K.faults sink.new }
{
    match start_in(alloc, action, file, files) {
        Start::Certified { checked, text } => {
            let source = Source {
                file: file.as_bytes(),
                text: text.as_slice(),
            };
            follow_certified(alloc, action, source, &checked, events, files, sink)
        }
        Start::Stopped(came) => answer(sink, came),
    }
}
