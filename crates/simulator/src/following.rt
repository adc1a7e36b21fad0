ghost use Rattle.std.specs.Prelude.{◌≡◌, ◌≢◌, ℕ, ◌≤◌, List, Some, true, false, IfSome};
ghost use Rattle.rsml_io.specs.Counts.{Rose};
ghost use Rattle.event_file.specs.Reading.{taken};
ghost use Rattle.text_writer.specs.Buffering.{Flushes};
ghost use Rattle.text_writer.specs.Parts.{state_of, text_of};
ghost use Rattle.simulator.specs.Simulation.{IsNew};
ghost use Rattle.simulator.specs.Ends.{end_by};
ghost use Rattle.simulator.specs.helpers.Progress.{Counted, Stops};
ghost use Rattle.simulator.specs.declared.sim_end.SimEnd.TheVariants as end;

use crate::course::Course;
use crate::reacting::put_reaction;
use crate::sim_end::SimEnd;
use crate::upcoming::Upcoming;
use rsml_io::{Files, Sink};
use rsml_meaning::{
    a_first_fault_is_of_a_line, event_files_have_one_run, well_formed_files_have_no_fault,
};
use text_writer::BufferedSink;

/// How a simulation ends, by a final answer.
pub fn end_by(answer: Upcoming) -> SimEnd
    ensures { result ≡ end_by answer }
{
    match answer {
        Upcoming::Event { .. } => SimEnd::Ended { events: 0 },
        Upcoming::Ended { events } => SimEnd::Ended { events },
        Upcoming::LineFault { line, fault } => SimEnd::LineFault { line, fault },
        Upcoming::LineTooLong { line } => SimEnd::LineTooLong { line },
        Upcoming::ReadFault => SimEnd::ReadFault,
        Upcoming::TooLong => SimEnd::TooLong,
    }
}

/// Writes what waits where the line of the next event is not held yet, so that the lines of an event stand in the sink before the file
/// is read further. Whether nothing was refused.
#[tactic(auto, using(crate::proofs::StandsLemmas::unflushed))]
fn is_ready<K: Sink>(course: &Course<'_, '_>, out: &mut BufferedSink<'_, K>) -> bool
    ensures flushes { Flushes (state_of K.faults K.written out.old) (text_of K.written out.old)
        (state_of K.faults K.written out.new) (text_of K.written out.new) }
    ensures whole { result ≡ (state_of K.faults K.written out.new).whole }
{
    if !course.holds_event() {
        out.flush();
    }
    out.is_whole()
}

/// Follows the events of a file one after another, from its beginning: writes each with its rounds, until there is none left, a line has
/// a fault, or a read or a write is refused.
pub fn follow_all<F: Files, K: Sink>(
    course: &mut Course<'_, '_>,
    files: &mut F,
    name: &str,
    out: &mut BufferedSink<'_, K>,
) -> SimEnd
    requires new { IsNew course.old }
    requires whole { (state_of K.faults K.written out.old).whole ≡ true }

    // Where it is told what the file holds.
    ensures told { IfSome (F.contents files.old name.now) (λ content.
        Stops course.old.spec course.old.limits content (taken course.new.reading) result
        (text_of K.written out.old) (state_of K.faults K.written out.new) (text_of K.written out.new)) }

    // Whether that is told or not.
    ensures read { result ≡ end.ReadFault →
        Rose (F.faults files.old name.now) (F.faults files.new name.now) }
    ensures reached { F.reach files.old name.now ≡ Some 0 →
        F.reach files.new name.now ≡ Some (taken course.new.reading) }
    ensures refused { result ≡ end.WriteFault → (state_of K.faults K.written out.new).whole ≡ false }
    ensures counted { Counted (state_of K.faults K.written out.old) (state_of K.faults K.written out.new) }
    ensures contents { (file : List ℕ) → F.contents files.new file ≡ F.contents files.old file }
    ensures count { (file : List ℕ) → F.faults files.old file ≤ F.faults files.new file }
    ensures others { (file : List ℕ) → file ≢ name.now →
        F.reach files.new file ≡ F.reach files.old file }
{
    event_files_have_one_run();
    well_formed_files_have_no_fault();
    a_first_fault_is_of_a_line();
    course.law();
    'events: loop {
        if !is_ready(course, out) {
            return SimEnd::WriteFault;
        }
        match course.next_event(files, name) {
            Upcoming::Event { interface } => put_reaction(course, out, interface),
            answer => return end_by(answer),
        }
    }
}
