ghost use Rattle.std.specs.Prelude.{◌≡◌, ◌<◌, IfSome, length, slice_get};
ghost use Rattle.rsml_meaning.specs.Interfaces.{receives};
ghost use Rattle.rsml_meaning.specs.Worlds.{IsWorld};
ghost use Rattle.micro_step.specs.Micros.{AreEvents};
ghost use Rattle.micro_step.specs.Numbers.{IsFor};
ghost use Rattle.simulator.specs.helpers.Kept.{HoldsNumbers};

use crate::parts::Part;
use crate::seen::Seen;
use crate::subject::Subject;
use coverage::Listener;
use elaborate::Machine;
use event_graph::Events;
use event_lines::LineForms;
use micro_step::{Scratch, micro};
use rsml_base::NoMemory;
use rsml_syntax::World;
use std::alloc::Global;
use std::marker::Model;

/// A machine that does what each event line tells that it hears, and keeps what its rounds ask for of macros and functions. It does the
/// rounds of the simulation once more, since that does not tell its world. Only `new` takes memory.
pub struct Watch<'m, 'a> {
    machine: &'m Machine<'a>,
    forms: LineForms<'a>,
    values: Vec<i64>,
    scratch: Scratch,
    world: World,
    seen: Seen<'m>,
}

impl Drop for Watch<'_, '_> {
    fn drop(self) {
        let Self {
            machine: _,
            forms: _,
            values: _,
            scratch: _,
            world: _,
            seen: _,
        } = self;
    }
}

impl<'m, 'a> Model for Watch<'m, 'a> {
    ghost use Rattle.std.specs.Coded.{codes};
    ghost use Rattle.rsml_syntax.specs.contracts.syntax.Body as bodies;
    ghost use Rattle.elaborate.specs.Machine.{GroundMachine};
    ghost use Rattle.cover_notes.specs.Watching.{IsWatching};

    ghost Value = { GroundMachine };

    ghost coded = { Prim.hlevel (codes, bodies.the_row.coded) };

    ghost view = { λ w. w.machine.now };

    ghost invariant = { λ w. IsWatching w.machine.now w.forms w.values.items w.scratch w.world };
}

/// Latches the message of a receive, whose numbers are the first of the values: the set of the event that it raises.
fn latch(machine: &Machine<'_>, world: &mut World, receive: u32, values: &[i64]) -> Events
    requires world { IsWorld machine.now.base.spec world.old }
    requires there { receive < length (receives machine.now.base.spec) }
    requires holds { IfSome (slice_get (receives machine.now.base.spec) receive) (λ x.
        HoldsNumbers machine.now.base.spec x values.now) }
    ensures world { IsWorld machine.now.base.spec world.new }
    ensures events { AreEvents machine.now.base.spec result }
{
    let interfaces = machine.interfaces();
    let fields = interfaces.fields(receive) as usize;
    interfaces.latch(world, receive, &values[..fields]);
    let event = interfaces.raised(receive);
    let _count = machine.events();
    let mut present = Events::new();
    present.put(event as usize);
    present
}

/// Does the rounds of an event that is present, until none is left, and keeps what each of them asks for. There are no more of them than
/// there are events.
fn react(
    machine: &Machine<'_>,
    scratch: &mut Scratch,
    world: &mut World,
    seen: &mut Seen<'_>,
    first: Events,
)
    requires world { IsWorld machine.now.base.spec world.old }
    requires made { IsFor machine.now scratch.old }
    requires events { AreEvents machine.now.base.spec first }
    ensures world { IsWorld machine.now.base.spec world.new }
    ensures made { IsFor machine.now scratch.new }
{
    let mut present = first;
    for _turn in 0..machine.events() {
        if present.next(0).is_none() {
            return;
        }
        seen.read(machine, world);
        micro(machine, scratch, world, &mut present);
        seen.ask_all(machine, scratch.taken(), scratch.sent());
        seen.keep();
    }
}

impl<'m, 'a> Watch<'m, 'a> {
    /// A machine in its first world, which has heard nothing.
    pub fn new(alloc: Global, subject: Subject<'m, 'a>) -> Result<Watch<'m, 'a>, NoMemory>
        requires { subject.machine.now.base.spec ≡ subject.checked.now }
    {
        let machine = subject.machine;
        let forms = LineForms::build(alloc, subject.checked)?;
        let fields = forms.most_fields();
        let values = vec![in alloc; 0i64; fields]?;
        let scratch = Scratch::new(alloc, machine)?;
        let world = machine.initial(alloc)?;
        let seen = Seen::new(alloc, machine)?;
        Ok(Watch {
            machine,
            forms,
            values,
            scratch,
            world,
            seen,
        })
    }

    /// The columns of macros and cases of functions, and what was seen of them.
    pub fn parts(&self) -> &[Part<'m>] {
        let _ = &self.world;
        self.seen.parts.as_slice()
    }
}

impl Listener for Watch<'_, '_> {
    fn hear(&mut self, line: &[u8]) {
        let values = self.values.as_mut_slice();
        if let Ok(received) = self.forms.read_line(line, values) {
            let machine = self.machine;
            let present = latch(machine, &mut self.world, received.interface, values);
            react(
                machine,
                &mut self.scratch,
                &mut self.world,
                &mut self.seen,
                present,
            );
        }
    }
}
