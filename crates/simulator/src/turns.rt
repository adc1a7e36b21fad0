ghost use Rattle.std.specs.Prelude.{◌≡◌, ◌≢◌, ◌+◌, ◌<◌, ◌≤◌, ◌^◌, ℕ, suc, true, false, [], IfErr, IfOk, IfSome, OnErr, Some, length, slice_get, take};
ghost use Rattle.rsml_meaning.specs.Words.{Each, Instance};
ghost use Rattle.rsml_meaning.specs.Certified.{Certified};
ghost use Rattle.rsml_meaning.specs.Chains.{Ends};
ghost use Rattle.rsml_meaning.specs.EventLines.{breaks, is_skipped, read_line};
ghost use Rattle.rsml_meaning.specs.Instances as instances;
ghost use Rattle.rsml_meaning.specs.Interfaces.{ReceiveInstance, receives};
ghost use Rattle.rsml_meaning.specs.Runs.{first_world};
ghost use Rattle.rsml_meaning.specs.Steps.{Round};
ghost use Rattle.rsml_meaning.specs.Trace.{event_line, round_text};
ghost use Rattle.rsml_meaning.specs.Scoped.{WellScoped};
ghost use Rattle.text_writer.specs.Writes.{Writes};
ghost use Rattle.event_lines.specs.Told.{rule_of};
ghost use Rattle.micro_step.specs.Rows.{bits_of, member_rows};
ghost use Rattle.reactions.specs.Stepping.{RoundIsDone, WasRound};
ghost use Rattle.simulator.specs.helpers.Turns.{Takes, message_of};
ghost use Rattle.simulator.specs.helpers.Kept.{HoldsNumbers, Latches};

use elaborate::Machine;
use event_lines::{LineFault, LineForms};
use ground_groups::Member;
use reactions::Running;
use rsml_syntax::{Checked, NoMemory};
use std::alloc::Global;
use std::marker::Model;
use text_writer::Writer;

/// A machine that takes the lines of an event file one after another. Only `new` takes memory. Contracts see the specification, the
/// world, the present events, how many events came, and the last round.
pub struct Turns<'m, 'a> {
    machine: &'m Machine<'a>,
    running: Running<'m, 'a>,
    forms: LineForms<'a>,
    values: Vec<i64>,
    events: u64,
}

impl Drop for Turns<'_, '_> {
    fn drop(self) {
        let Self {
            machine: _,
            running: _,
            forms: _,
            values: _,
            events: _,
        } = self;
    }
}

impl<'m, 'a> Model for Turns<'m, 'a> {
    ghost use Rattle.std.specs.Coded.{codes};
    ghost use Rattle.rsml_syntax.specs.contracts.syntax.Body as bodies;
    ghost use Rattle.simulator.specs.helpers.Turns.{Turning};
    ghost use Rattle.simulator.specs.helpers.Kept.{AreForTurns};

    ghost Value = { Turning };

    ghost coded = { Prim.hlevel (codes, bodies.the_row.coded) };

    ghost view = { λ t. record {
      spec = t.machine.now.base.spec;
      world = t.running.world;
      present = t.running.present;
      events = t.events;
      last = t.running.last;
    } };

    ghost invariant = { λ t. AreForTurns t.machine.now t.running t.forms t.values.items };
}

/// Latches the message that a line told: its numbers are the first of the values.
fn latch(machine: &Machine<'_>, running: &mut Running<'_, '_>, receive: u32, values: &[i64])
    requires same { running.old.machine ≡ machine.now }
    requires none { running.old.present ≡ [] }
    requires there { receive < length (receives machine.now.base.spec) }
    requires holds { IfSome (slice_get (receives machine.now.base.spec) receive) (λ x.
        HoldsNumbers machine.now.base.spec x values.now) }
    ensures machine { running.new.machine ≡ running.old.machine }
    ensures latches { (x : ReceiveInstance) → slice_get (receives machine.now.base.spec) receive ≡ Some x →
        Latches machine.now.base.spec (message_of x values.now) running.old running.new }
{
    let fields = machine.interfaces().fields(receive) as usize;
    running.latch(receive, &values[..fields]);
}

impl<'m, 'a> Turns<'m, 'a> {
    /// A machine of this specification in its first world.
    pub fn new(
        alloc: Global,
        checked: &'a Checked,
        machine: &'m Machine<'a>,
    ) -> Result<Turns<'m, 'a>, NoMemory>
        requires machine { machine.now.base.spec ≡ checked.now }
        requires certified { Certified checked.now }
        ensures spec { IfOk result (λ t. t.spec ≡ checked.now) }
        ensures first { IfOk result (λ t. t.world ≡ first_world checked.now) }
        ensures last { IfOk result (λ t. t.last.world ≡ first_world checked.now) }
        ensures none_taken { IfOk result (λ t. t.last.taken ≡ []) }
        ensures none_sent { IfOk result (λ t. t.last.sent ≡ []) }
        ensures none { IfOk result (λ t. t.present ≡ []) }
        ensures uncounted { IfOk result (λ t. t.events ≡ 0) }
    {
        let forms = LineForms::build(alloc, checked)?;
        let fields = forms.most_fields();
        let running = Running::new(alloc, checked, machine, fields)?;
        let values = vec![in alloc; 0i64; fields]?;
        Ok(Turns {
            machine,
            running,
            forms,
            values,
            events: 0,
        })
    }

    /// The law of its specification, which a call of this function tells its caller.
    pub fn law(&self)
        ensures certified { Certified self.now.spec }
        ensures scoped { WellScoped self.now.spec }
    {
        let _ = &self.running;
        self.machine.law();
    }

    /// How many events came.
    pub fn events(&self) -> u64
        ensures { result ≡ self.now.events }
    {
        self.events
    }

    /// How many events the specification has.
    pub fn most_rounds(&self) -> u32
        ensures { result ≡ length (instances.events self.now.spec) }
    {
        let _ = &self.running;
        self.machine.events()
    }

    /// Takes a line without its line end that is not skipped: latches the message that it tells, counts it, and says the number of its
    /// receive. Else it says the lowest rule that the line breaks.
    pub fn take(&mut self, line: &[u8]) -> Result<u32, LineFault>
        requires none { self.old.present ≡ [] }
        requires room { self.old.events + 1 < 2 ^ 64 }
        requires unskipped { is_skipped line.now ≡ false }
        ensures ok { IfOk result (λ k. Takes (read_line self.old.spec line.now) k self.old self.new) }
        ensures err { IfErr result (λ fault. read_line self.old.spec line.now ≡ breaks (rule_of fault)) }
        ensures idle { OnErr result (self.new ≡ self.old) }
    {
        let values = self.values.as_mut_slice();
        match self.forms.read_line(line, values) {
            Ok(received) => {
                self.events += 1;
                latch(self.machine, &mut self.running, received.interface, values);
                Ok(received.interface)
            }
            Err(fault) => Err(fault),
        }
    }

    /// Does a round on the present events. Whether one was present; where none was, nothing changes.
    pub fn round(&mut self) -> bool
        ensures none { result ≡ false → (self.old.present ≡ []) × (self.new ≡ self.old) }
        ensures some { result ≡ true → self.old.present ≢ [] }
        ensures done { result ≡ true →
            RoundIsDone self.old.spec self.old.world self.old.present self.new.last self.new.world self.new.present }
        ensures longer { result ≡ true → (x : Instance) (n : ℕ)
            → Each (Ends self.old.spec x n) self.old.present → Each (Ends self.old.spec x (suc n)) self.new.present }
        ensures rest { self.new ≡ record self.old { world = self.new.world; present = self.new.present; last = self.new.last } }
    {
        self.running.round()
    }

    /// The numbers of the transitions that the last round took, rising.
    pub fn taken(&self) -> &[u32]
        ensures { result.now ≡ self.now.last.taken }
    {
        self.running.taken()
    }

    /// The numbers of the cases of sends that were enabled in the last round, rising.
    pub fn sent(&self) -> &[u32]
        ensures { result.now ≡ self.now.last.sent }
    {
        self.running.sent()
    }

    /// The truths of the rows of a member's table in the world before the last round, as bits.
    pub fn rows(&mut self, member: Member) -> u64
        ensures rows { result ≡ bits_of (member_rows self.old.spec self.old.last.world member) }
        ensures unchanged { self.new ≡ self.old }
    {
        self.running.rows(member)
    }

    /// Writes the line of the last event: its number, and the receive by which it came.
    pub fn put_event<W: Writer>(&self, out: &mut W, receive: u32)
        requires { receive < length (receives self.now.spec) }
        ensures { (x : ReceiveInstance) → slice_get (receives self.now.spec) receive ≡ Some x
            → Writes (W.state out.old) (W.text out.old) (event_line self.now.events x.receive)
            (W.state out.new) (W.text out.new) }
    {
        self.running.put_event(out, self.events, receive);
    }

    /// Writes the last round with its number.
    pub fn put_round<W: Writer>(&self, out: &mut W, number: u32)
        ensures { (r : Round) → WasRound self.now.spec self.now.last r
            → Writes (W.state out.old) (W.text out.old) (round_text (instances.globals_of self.now.spec) (number, r))
            (W.state out.new) (W.text out.new) }
    {
        self.running.put_round(out, number);
    }
}
