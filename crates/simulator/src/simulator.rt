ghost use Rattle.std.specs.Prelude.{◌≡◌, ◌≢◌, ◌<◌, ◌≤◌, ℕ, suc, true, false, [], IfOk, IfSome, List, None, Some};
ghost use Rattle.rsml_io.specs.Counts.{Rose};
ghost use Rattle.rsml_meaning.specs.Words.{Each, Instance};
ghost use Rattle.rsml_meaning.specs.Certified.{Certified};
ghost use Rattle.rsml_meaning.specs.Chains.{Ends};
ghost use Rattle.event_file.specs.Reading.{IsAllowed, limits_of, taken};
ghost use Rattle.micro_step.specs.Rows.{bits_of, member_rows};
ghost use Rattle.reactions.specs.Stepping.{RoundIsDone};
ghost use Rattle.simulator.specs.Fitting.{FitsFile, Goes};
ghost use Rattle.simulator.specs.Simulating.{Simulates};
ghost use Rattle.simulator.specs.Simulation.{IsNew};
ghost use Rattle.simulator.specs.declared.upcoming.Upcoming.TheVariants as upcoming;

use crate::course::Course;
use crate::following::follow_all;
use crate::last_line::put_last_line;
use crate::sim_end::SimEnd;
use crate::upcoming::Upcoming;
use elaborate::Machine;
use event_file::Limits;
use ground_groups::Member;
use rsml_io::{Files, Sink};
use rsml_syntax::{Checked, NoMemory};
use std::alloc::Global;
use std::marker::Model;
use text_writer::{Buffer, BufferedSink};

/// How many bytes of a trace wait at most before they are written.
const ROOM: usize = 65536;

/// A machine that simulates a certified specification over one event file. It takes all its memory in `new`. Contracts see what the
/// simulation is of, and how far it has come.
pub struct Simulator<'m, 'a> {
    course: Course<'m, 'a>,
    buffer: Buffer,
}

impl Drop for Simulator<'_, '_> {
    fn drop(self) {
        let Self {
            course: _,
            buffer: _,
        } = self;
    }
}

impl<'m, 'a> Model for Simulator<'m, 'a> {
    ghost use Rattle.std.specs.Prelude.{◌≡◌, []};
    ghost use Rattle.std.specs.Coded.{codes};
    ghost use Rattle.rsml_syntax.specs.contracts.syntax.Body as bodies;
    ghost use Rattle.simulator.specs.Simulation.{Simulation};

    ghost Value = { Simulation };

    ghost coded = { Prim.hlevel (codes, bodies.the_row.coded) };

    ghost view = { λ m. m.course };

    ghost invariant = { λ m. m.buffer.bytes ≡ [] };
}

impl<'m, 'a> Simulator<'m, 'a> {
    /// All that a simulation keeps. It is new, and fits all contents.
    pub fn new(
        alloc: Global,
        checked: &'a Checked,
        machine: &'m Machine<'a>,
        limits: Limits,
    ) -> Result<Simulator<'m, 'a>, NoMemory>
        requires machine { machine.now.base.spec ≡ checked.now }
        requires certified { Certified checked.now }
        requires limits { IsAllowed limits }
        ensures spec { IfOk result (λ r. r.spec ≡ checked.now) }
        ensures limits { IfOk result (λ r. r.limits ≡ limits_of limits) }
        ensures new { IfOk result IsNew }
        ensures fits { IfOk result (λ r. (content : List ℕ) → FitsFile content r) }
    {
        let course = Course::new(alloc, checked, machine, limits)?;
        let buffer = Buffer::new(alloc, ROOM)?;
        Ok(Simulator { course, buffer })
    }

    /// Reads on to the next event of a file that the simulation fits: the next line that is not skipped. Its message is latched, the event
    /// that its receive raises is present, and it is counted. Or why there is none; such an answer stands from then on. Lines that are
    /// held already are not read again, and it takes no memory.
    pub fn next_event<F: Files>(&mut self, files: &mut F, name: &str) -> Upcoming
        requires none { self.old.present ≡ [] }
        requires fits { IfSome (F.contents files.old name.now) (λ content. FitsFile content self.old) }

        // Where it is told what the file holds.
        ensures fits { IfSome (F.contents files.old name.now) (λ content. FitsFile content self.new) }

        // Whether that is told or not.
        ensures goes { Goes (F.contents files.old name.now) self.old result self.new }
        ensures repeats { IfSome self.old.answered (λ answer.
            (result ≡ answer) × (self.new ≡ self.old) × (files.new ≡ files.old)) }
        ensures read { result ≡ upcoming.ReadFault → self.old.answered ≡ None →
            Rose (F.faults files.old name.now) (F.faults files.new name.now) }
        ensures forward { (k : ℕ) → result ≡ upcoming.Event k → self.old.reading.at < self.new.reading.at }
        ensures within { self.new.reading.at ≤ self.old.limits.file }

        // What it reads.
        ensures reached { F.reach files.old name.now ≡ Some (taken self.old.reading) →
            F.reach files.new name.now ≡ Some (taken self.new.reading) }
        ensures contents { (file : List ℕ) → F.contents files.new file ≡ F.contents files.old file }
        ensures count { (file : List ℕ) → F.faults files.old file ≤ F.faults files.new file }
        ensures others { (file : List ℕ) → file ≢ name.now →
            F.reach files.new file ≡ F.reach files.old file }
    {
        let _ = &self.buffer;
        self.course.next_event(files, name)
    }

    /// Does a round: one micro-step on the present events. Whether one was present; where none was, nothing changes. A certified
    /// specification has no more rounds after an event than it has events.
    pub fn round(&mut self) -> bool
        ensures none { result ≡ false → (self.old.present ≡ []) × (self.new ≡ self.old) }
        ensures some { result ≡ true → self.old.present ≢ [] }
        ensures done { result ≡ true →
            RoundIsDone self.old.spec self.old.world self.old.present self.new.last self.new.world self.new.present }
        ensures longer { result ≡ true → (x : Instance) (n : ℕ)
            → Each (Ends self.old.spec x n) self.old.present → Each (Ends self.old.spec x (suc n)) self.new.present }
        ensures rest { self.new ≡ record self.old { world = self.new.world; present = self.new.present; last = self.new.last } }
        ensures fits { (content : List ℕ) → FitsFile content self.old → FitsFile content self.new }
    {
        let _ = &self.buffer;
        self.course.round()
    }

    /// The numbers of the transitions that the last round took, rising. None before the first round.
    pub fn taken(&self) -> &[u32]
        ensures { result.now ≡ self.now.last.taken }
    {
        let _ = &self.buffer;
        self.course.taken()
    }

    /// The numbers of the cases of sends that were enabled in the last round, rising. None before the first round.
    pub fn sent(&self) -> &[u32]
        ensures { result.now ≡ self.now.last.sent }
    {
        let _ = &self.buffer;
        self.course.sent()
    }

    /// The last line that was read, without one CR at its end: where `next_event` answered a fault of a line, this one.
    pub fn line(&self) -> &[u8]
        ensures { result.now ≡ self.now.reading.line }
    {
        let _ = &self.buffer;
        self.course.line()
    }

    /// The truths of the rows of a member's table in the world before the last round, which is the first world where there was none: bit
    /// k, from 0, is that of row k + 1. 0 for a guard `always`, and where there is no such member. What was not needed to know what is
    /// enabled is worked out now, and kept until the next round. It takes no memory.
    pub fn rows(&mut self, member: Member) -> u64
        ensures rows { result ≡ bits_of (member_rows self.old.spec self.old.last.world member) }
        ensures unchanged { self.new ≡ self.old }
    {
        let _ = &self.buffer;
        self.course.rows(member)
    }

    /// Follows a file from its beginning, event by event and round by round, and writes the trace of the run: an event's lines are written
    /// before the file is read further. After the first fault of the file its line is written. It takes no memory.
    pub fn run<F: Files, K: Sink>(self, files: &mut F, name: &str, sink: &mut K) -> SimEnd
        requires { IsNew self }
        ensures simulates { Simulates self.entry.spec self.entry.limits (record {
          told = F.contents files.old name.now;
          reach = F.reach files.old name.now;
          reach_after = F.reach files.new name.now;
          reads_refused = F.faults files.old name.now;
          reads_refused_after = F.faults files.new name.now;
          written = K.written sink.old;
          written_after = K.written sink.new;
          writes_refused = K.faults sink.old;
          writes_refused_after = K.faults sink.new;
        }) result }
        ensures contents { (file : List ℕ) → F.contents files.new file ≡ F.contents files.old file }
        ensures count { (file : List ℕ) → F.faults files.old file ≤ F.faults files.new file }
        ensures others { (file : List ℕ) → file ≢ name.now →
            F.reach files.new file ≡ F.reach files.old file }
        ensures sink_count { K.faults sink.old ≤ K.faults sink.new }
    {
        let Simulator {
            mut course,
            mut buffer,
        } = self;
        let mut out = BufferedSink::new(sink, &mut buffer);
        let end = follow_all(&mut course, files, name, &mut out);
        put_last_line(&mut out, end);
        if out.finish() {
            end
        } else {
            SimEnd::WriteFault
        }
    }
}
