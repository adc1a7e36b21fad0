ghost use Rattle.std.specs.Prelude.{◌≡◌, ◌≢◌, ◌+◌, ◌<◌, ◌≤◌, ◌^◌, ℕ, List, suc, true, false, [], IfOk, IfSome, None, Some, length, slice_get};
ghost use Rattle.rsml_io.specs.Counts.{Rose};
ghost use Rattle.rsml_meaning.specs.Words.{Each, Instance};
ghost use Rattle.rsml_meaning.specs.Certified.{Certified};
ghost use Rattle.rsml_meaning.specs.Chains.{Ends};
ghost use Rattle.rsml_meaning.specs.EventLines.{is_skipped};
ghost use Rattle.rsml_meaning.specs.Instances as instances;
ghost use Rattle.rsml_meaning.specs.Interfaces.{ReceiveInstance, receives};
ghost use Rattle.rsml_meaning.specs.Steps.{Round};
ghost use Rattle.rsml_meaning.specs.Trace.{event_line, round_text};
ghost use Rattle.rsml_meaning.specs.Scoped.{WellScoped};
ghost use Rattle.text_writer.specs.Writes.{Writes};
ghost use Rattle.event_file.specs.Reading.{IsAllowed, limits_of, taken};
ghost use Rattle.event_file.specs.declared.next.Next.TheVariants as next;
ghost use Rattle.micro_step.specs.Rows.{bits_of, member_rows};
ghost use Rattle.reactions.specs.Stepping.{RoundIsDone, WasRound};
ghost use Rattle.simulator.specs.Fitting.{FitsFile, Goes};
ghost use Rattle.simulator.specs.Simulation.{IsNew};
ghost use Rattle.simulator.specs.declared.upcoming.Upcoming.TheVariants as upcoming;
ghost use Rattle.simulator.specs.helpers.Taking.{AnswerGoes, LineGoes, final_of, if_final};

use crate::passing::{holds_event, next_unskipped};
use crate::turns::Turns;
use crate::upcoming::Upcoming;
use elaborate::Machine;
use event_file::{Limits, LineReader, Next};
use ground_groups::Member;
use rsml_io::Files;
use rsml_meaning::{a_first_fault_is_of_a_line, well_formed_files_have_no_fault};
use rsml_syntax::{Checked, NoMemory};
use std::alloc::Global;
use std::marker::Model;
use text_writer::Writer;

/// A simulation without the room for what it writes: a machine that takes lines, and the reader that gives them. Only `new` takes
/// memory.
pub struct Course<'m, 'a> {
    turns: Turns<'m, 'a>,
    reader: LineReader,
    answered: Option<Upcoming>,
}

impl Drop for Course<'_, '_> {
    fn drop(self) {
        let Self {
            turns: _,
            reader: _,
            answered: _,
        } = self;
    }
}

impl<'m, 'a> Model for Course<'m, 'a> {
    ghost use Rattle.std.specs.Coded.{codes};
    ghost use Rattle.rsml_syntax.specs.contracts.syntax.Body as bodies;
    ghost use Rattle.simulator.specs.Simulation.{Simulation};
    ghost use Rattle.simulator.specs.helpers.Ready.{IsGoing};
    ghost use Rattle.simulator.specs.helpers.Taking.{simulation_of};

    ghost Value = { Simulation };

    ghost coded = { Prim.hlevel (codes, bodies.the_row.coded) };

    ghost view = { λ c. simulation_of c.turns c.reader c.answered };

    ghost invariant = { λ c. IsGoing c.reader c.answered c.turns.events };
}

/// The answer on a line that is not skipped.
fn take_line(turns: &mut Turns<'_, '_>, reader: &LineReader) -> Upcoming
    requires none { turns.old.present ≡ [] }
    requires room { turns.old.events + 1 < 2 ^ 64 }
    requires unskipped { is_skipped reader.now.line ≡ false }
    ensures { LineGoes reader.now turns.old result turns.new }
{
    match turns.take(reader.line()) {
        Ok(interface) => Upcoming::Event { interface },
        Err(fault) => Upcoming::LineFault {
            line: reader.number(),
            fault,
        },
    }
}

/// The answer where the reader has no line.
fn final_of(given: Next, events: u64, number: u64) -> Upcoming
    ensures { result ≡ final_of given events number }
{
    match given {
        Next::Line | Next::End => Upcoming::Ended { events },
        Next::ReadFault => Upcoming::ReadFault,
        Next::LineTooLong => Upcoming::LineTooLong { line: number },
        Next::TooLong => Upcoming::TooLong,
    }
}

/// The answer on what the reader gave.
fn answer_on(turns: &mut Turns<'_, '_>, reader: &LineReader, given: Next) -> Upcoming
    requires none { turns.old.present ≡ [] }
    requires room { turns.old.events + 1 < 2 ^ 64 }
    requires unskipped { given ≡ next.Line → is_skipped reader.now.line ≡ false }
    ensures { AnswerGoes given reader.now turns.old result turns.new }
{
    match given {
        Next::Line => take_line(turns, reader),
        given => final_of(given, turns.events(), reader.number()),
    }
}

/// An answer, where it is final.
fn if_final(answer: Upcoming) -> Option<Upcoming>
    ensures { result ≡ if_final answer }
{
    match answer {
        Upcoming::Event { .. } => None,
        answer => Some(answer),
    }
}

impl<'m, 'a> Course<'m, 'a> {
    /// The beginning of a simulation.
    pub fn new(
        alloc: Global,
        checked: &'a Checked,
        machine: &'m Machine<'a>,
        limits: Limits,
    ) -> Result<Course<'m, 'a>, NoMemory>
        requires machine { machine.now.base.spec ≡ checked.now }
        requires certified { Certified checked.now }
        requires limits { IsAllowed limits }
        ensures spec { IfOk result (λ c. c.spec ≡ checked.now) }
        ensures limits { IfOk result (λ c. c.limits ≡ limits_of limits) }
        ensures new { IfOk result IsNew }
        ensures fits { IfOk result (λ c. (content : List ℕ) → FitsFile content c) }
    {
        let turns = Turns::new(alloc, checked, machine)?;
        let reader = LineReader::new(alloc, limits)?;
        Ok(Course {
            turns,
            reader,
            answered: None,
        })
    }

    /// The law of its specification, which a call of this function tells its caller.
    pub fn law(&self)
        ensures certified { Certified self.now.spec }
        ensures scoped { WellScoped self.now.spec }
    {
        let _ = &self.reader;
        self.turns.law();
    }

    /// Reads on to the next event of the file. See `Simulator::next_event`.
    pub fn next_event<F: Files>(&mut self, files: &mut F, name: &str) -> Upcoming
        requires none { self.old.present ≡ [] }
        requires fits { IfSome (F.contents files.old name.now) (λ content. FitsFile content self.old) }

        // Where it is told what the file holds.
        ensures fits { IfSome (F.contents files.old name.now) (λ content. FitsFile content self.new) }

        // Whether that is told or not.
        ensures goes { Goes (F.contents files.old name.now) self.old result self.new }
        ensures repeats { IfSome self.old.answered (λ answer.
            (result ≡ answer) × (self.new ≡ self.old) × (files.new ≡ files.old)) }
        ensures read { result ≡ upcoming.ReadFault → self.old.answered ≡ None →
            Rose (F.faults files.old name.now) (F.faults files.new name.now) }
        ensures forward { (k : ℕ) → result ≡ upcoming.Event k → self.old.reading.at < self.new.reading.at }
        ensures within { self.new.reading.at ≤ self.old.limits.file }
        ensures limits { self.new.limits ≡ self.old.limits }

        // What it reads.
        ensures reached { F.reach files.old name.now ≡ Some (taken self.old.reading) →
            F.reach files.new name.now ≡ Some (taken self.new.reading) }
        ensures contents { (file : List ℕ) → F.contents files.new file ≡ F.contents files.old file }
        ensures count { (file : List ℕ) → F.faults files.old file ≤ F.faults files.new file }
        ensures others { (file : List ℕ) → file ≢ name.now →
            F.reach files.new file ≡ F.reach files.old file }
    {
        if let Some(answer) = self.answered {
            return answer;
        }
        well_formed_files_have_no_fault();
        a_first_fault_is_of_a_line();
        let given = next_unskipped(&mut self.reader, files, name);
        let answer = answer_on(&mut self.turns, &self.reader, given);
        self.answered = if_final(answer);
        answer
    }

    /// Whether a line that is not skipped is held as far as it is told, so that `next_event` reads nothing.
    pub fn holds_event(&self) -> bool {
        let _ = &self.turns;
        holds_event(&self.reader)
    }

    /// How many events the specification has.
    pub fn most_rounds(&self) -> u32
        ensures { result ≡ length (instances.events self.now.spec) }
    {
        let _ = &self.reader;
        self.turns.most_rounds()
    }

    /// Does a round on the present events. Whether one was present; where none was, nothing changes.
    pub fn round(&mut self) -> bool
        ensures none { result ≡ false → (self.old.present ≡ []) × (self.new ≡ self.old) }
        ensures some { result ≡ true → self.old.present ≢ [] }
        ensures done { result ≡ true →
            RoundIsDone self.old.spec self.old.world self.old.present self.new.last self.new.world self.new.present }
        ensures longer { result ≡ true → (x : Instance) (n : ℕ)
            → Each (Ends self.old.spec x n) self.old.present → Each (Ends self.old.spec x (suc n)) self.new.present }
        ensures rest { self.new ≡ record self.old { world = self.new.world; present = self.new.present; last = self.new.last } }
    {
        let _ = &self.reader;
        self.turns.round()
    }

    /// The numbers of the transitions that the last round took, rising.
    pub fn taken(&self) -> &[u32]
        ensures { result.now ≡ self.now.last.taken }
    {
        let _ = &self.reader;
        self.turns.taken()
    }

    /// The numbers of the cases of sends that were enabled in the last round, rising.
    pub fn sent(&self) -> &[u32]
        ensures { result.now ≡ self.now.last.sent }
    {
        let _ = &self.reader;
        self.turns.sent()
    }

    /// The last line that was read.
    pub fn line(&self) -> &[u8]
        ensures { result.now ≡ self.now.reading.line }
    {
        let _ = &self.turns;
        self.reader.line()
    }

    /// The truths of the rows of a member's table in the world before the last round, as bits.
    pub fn rows(&mut self, member: Member) -> u64
        ensures rows { result ≡ bits_of (member_rows self.old.spec self.old.last.world member) }
        ensures unchanged { self.new ≡ self.old }
    {
        let _ = &self.reader;
        self.turns.rows(member)
    }

    /// Writes the line of the last event: its number, and the receive by which it came.
    pub fn put_event<W: Writer>(&self, out: &mut W, receive: u32)
        requires { receive < length (receives self.now.spec) }
        ensures { (x : ReceiveInstance) → slice_get (receives self.now.spec) receive ≡ Some x
            → Writes (W.state out.old) (W.text out.old) (event_line self.now.events x.receive)
            (W.state out.new) (W.text out.new) }
    {
        let _ = &self.reader;
        self.turns.put_event(out, receive);
    }

    /// Writes the last round with its number.
    pub fn put_round<W: Writer>(&self, out: &mut W, number: u32)
        ensures { (r : Round) → WasRound self.now.spec self.now.last r
            → Writes (W.state out.old) (W.text out.old) (round_text (instances.globals_of self.now.spec) (number, r))
            (W.state out.new) (W.text out.new) }
    {
        let _ = &self.reader;
        self.turns.put_round(out, number);
    }
}
