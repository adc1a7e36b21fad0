ghost use Rattle.std.specs.Prelude.{◌≡◌, ◌≢◌, ◌<◌, ◌≤◌, ◌∷◌, ℕ, suc, true, false, [], IfOk, IfSome, Some, length, slice_get};
ghost use Rattle.rsml_meaning.specs.Words.{Each, Instance};
ghost use Rattle.rsml_meaning.specs.Certified.{Certified};
ghost use Rattle.rsml_meaning.specs.Chains.{Ends};
ghost use Rattle.rsml_meaning.specs.Instances.{globals_of};
ghost use Rattle.rsml_meaning.specs.Interfaces.{ReceiveInstance, receives};
ghost use Rattle.rsml_meaning.specs.Runs.{first_world, latched};
ghost use Rattle.rsml_meaning.specs.Steps.{Round};
ghost use Rattle.rsml_meaning.specs.Trace.{event_line, round_text};
ghost use Rattle.interfaces.specs.Writes.{AreTyped};
ghost use Rattle.micro_step.specs.Rows.{bits_of, member_rows};
ghost use Rattle.text_writer.specs.Writes.{Writes};
ghost use Rattle.reactions.specs.Stepping.{IsExternal, RoundIsDone, WasRound};

use crate::Traces;
use crate::raising::raise;
use crate::waiting::Waiting;
use elaborate::Machine;
use event_graph::Events;
use ground_groups::Member;
use micro_step::{Scratch, enter_all, react};
use rsml_syntax::{Checked, NoMemory, World};
use std::alloc::Global;
use std::marker::Model;
use text_writer::Writer;

/// A machine that runs: the events that are present, and what it keeps for its rounds. The world that it keeps is the one before the last
/// round, so that it can be asked what was true there: what that round moved is entered when the next one begins, and so is the message
/// that came since. Only `new` takes memory. Contracts see the machine, its world, in which all is entered, its present events and its last
/// round.
pub struct Running<'m, 'a> {
    machine: &'m Machine<'a>,
    traces: Traces<'m, 'a>,
    scratch: Scratch,
    world: World,
    present: Events,
    before: Events,
    waiting: Waiting,
}

impl Drop for Running<'_, '_> {
    fn drop(self) {
        let Self {
            machine: _,
            traces: _,
            scratch: _,
            world: _,
            present: _,
            before: _,
            waiting: _,
        } = self;
    }
}

impl<'m, 'a> Model for Running<'m, 'a> {
    ghost use Rattle.std.specs.Coded.{codes};
    ghost use Rattle.rsml_syntax.specs.contracts.syntax.Body as bodies;
    ghost use Rattle.micro_step.specs.Micros.{events_in};
    ghost use Rattle.reactions.specs.Stepping.{InWorld, AreKept, last_of, settled};

    ghost Value = { InWorld };

    ghost coded = { Prim.hlevel (codes, bodies.the_row.coded) };

    ghost view = { λ r. record {
      machine = r.machine.now;
      world = settled r.machine.now r.world r.scratch.taken.items r.waiting.message;
      present = events_in r.machine.now.base.spec r.present;
      last = last_of r.machine.now.base.spec r.world r.before r.scratch;
    } };

    ghost invariant = { λ r. AreKept r.machine.now r.traces r.scratch r.world r.present r.before r.waiting };
}

impl<'m, 'a> Running<'m, 'a> {
    /// A machine of this specification in its first world, where no event is present, with room for messages of so many fields. The world
    /// before the last round is the first one too.
    pub fn new(
        alloc: Global,
        checked: &'a Checked,
        machine: &'m Machine<'a>,
        fields: usize,
    ) -> Result<Running<'m, 'a>, NoMemory>
        requires machine { machine.now.base.spec ≡ checked.now }
        requires fields { Each (λ x. length x.inputs ≤ fields) (receives checked.now) }
        ensures machine { IfOk result (λ r. r.machine ≡ machine.now) }
        ensures first { IfOk result (λ r. r.world ≡ first_world checked.now) }
        ensures last { IfOk result (λ r. r.last.world ≡ first_world checked.now) }
        ensures none_taken { IfOk result (λ r. r.last.taken ≡ []) }
        ensures none_sent { IfOk result (λ r. r.last.sent ≡ []) }
        ensures none { IfOk result (λ r. r.present ≡ []) }
    {
        let traces = Traces::new(alloc, checked, machine)?;
        let scratch = Scratch::new(alloc, machine)?;
        let world = machine.initial(alloc)?;
        let present = Events::new();
        let before = Events::new();
        let waiting = Waiting::new(alloc, fields)?;
        Ok(Running {
            machine,
            traces,
            scratch,
            world,
            present,
            before,
            waiting,
        })
    }

    /// Writes the line of an event: its number, and the receive by which it came.
    pub fn put_event<W: Writer>(&self, writer: &mut W, number: u64, receive: u32)
        requires { receive < length (receives self.now.machine.base.spec) }
        ensures { (x : ReceiveInstance) → slice_get (receives self.now.machine.base.spec) receive ≡ Some x
            → Writes (W.state writer.old) (W.text writer.old) (event_line number x.receive)
            (W.state writer.new) (W.text writer.new) }
    {
        self.traces.put_event(writer, number, receive);
    }

    /// Writes the last round with its number.
    pub fn put_round<W: Writer>(&self, writer: &mut W, number: u32)
        ensures { (r : Round) → WasRound self.now.machine.base.spec self.now.last r
            → Writes (W.state writer.old) (W.text writer.old)
            (round_text (globals_of self.now.machine.base.spec) (number, r)) (W.state writer.new) (W.text writer.new) }
    {
        self.traces
            .put_round(writer, number, &self.before, &self.scratch);
    }

    /// Writes the numbers of a message into the world, and makes the event that its receive raises the one that is present.
    pub fn latch(&mut self, receive: u32, numbers: &[i64])
        requires none { self.old.present ≡ [] }
        requires there { receive < length (receives self.old.machine.base.spec) }
        requires typed { IfSome (slice_get (receives self.old.machine.base.spec) receive) (λ x.
            AreTyped self.old.machine.base.spec x.inputs numbers.now) }
        ensures machine { self.new.machine ≡ self.old.machine }
        ensures changes { IfSome (slice_get (receives self.old.machine.base.spec) receive) (λ x. self.new ≡ record self.old {
          world = latched self.old.machine.base.spec self.old.world (record { receive = x; numbers = numbers.now });
          present = x.raised ∷ [];
        }) }
        ensures external { IsExternal self.old.machine.base.spec self.new.present }
    {
        let machine = self.machine;
        raise(machine, receive, &mut self.present);
        self.waiting.put(receive, numbers);
    }

    /// Whether an event is present.
    fn has_event(&self) -> bool
        ensures some { result ≡ true → self.now.present ≢ [] }
        ensures none { result ≡ false → self.now.present ≡ [] }
    {
        let _ = &self.world;
        let machine = self.machine;
        let count = machine.events() as usize;
        self.present.next_below(0, count).is_some()
    }

    /// Enters what the last round moved and the message that came since, and does a micro-step on the present events, but for its moves.
    fn advance(&mut self)
        ensures machine { self.new.machine ≡ self.old.machine }
        ensures done { RoundIsDone self.old.machine.base.spec self.old.world self.old.present
            self.new.last self.new.world self.new.present }
        ensures longer { Certified self.old.machine.base.spec → (x : Instance) (n : ℕ)
            → Each (Ends self.old.machine.base.spec x n) self.old.present
            → Each (Ends self.old.machine.base.spec x (suc n)) self.new.present }
    {
        let machine = self.machine;
        enter_all(machine, &mut self.world.choices, self.scratch.taken());
        self.waiting.latch(machine.interfaces(), &mut self.world);
        self.before = self.present;
        react(machine, &mut self.scratch, &self.world, &mut self.present);
    }

    /// Does a round: a micro-step on the present events. Whether one was present; where none was, nothing changes.
    pub fn round(&mut self) -> bool
        ensures none { result ≡ false → (self.old.present ≡ []) × (self.new ≡ self.old) }
        ensures some { result ≡ true → self.old.present ≢ [] }
        ensures done { result ≡ true → RoundIsDone self.old.machine.base.spec self.old.world self.old.present
            self.new.last self.new.world self.new.present }
        ensures longer { result ≡ true → Certified self.old.machine.base.spec → (x : Instance) (n : ℕ)
            → Each (Ends self.old.machine.base.spec x n) self.old.present
            → Each (Ends self.old.machine.base.spec x (suc n)) self.new.present }
        ensures machine { self.new.machine ≡ self.old.machine }
    {
        if !self.has_event() {
            return false;
        }
        self.advance();
        true
    }

    /// The numbers of the transitions that the last round took, rising.
    pub fn taken(&self) -> &[u32]
        ensures { result.now ≡ self.now.last.taken }
    {
        self.scratch.taken()
    }

    /// The numbers of the cases of sends that were enabled in the last round, rising.
    pub fn sent(&self) -> &[u32]
        ensures { result.now ≡ self.now.last.sent }
    {
        self.scratch.sent()
    }

    /// The truths of the rows of a member's table in the world before the last round, the first world if there was none: bit k, from 0,
    /// is that of row k + 1. 0 for a guard `always`, and where there is no such member. It takes no memory.
    pub fn rows(&mut self, member: Member) -> u64
        ensures rows { result ≡ bits_of (member_rows self.old.machine.base.spec self.old.last.world member) }
        ensures unchanged { self.new ≡ self.old }
    {
        let _ = &self.before;
        self.scratch.rows(self.machine, &self.world, member)
    }
}
