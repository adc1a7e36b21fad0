ghost use Rattle.std.specs.Prelude.{◌≡◌, ℕ, suc};
ghost use Rattle.rsml_meaning.specs.Words.{Each, Instance};
ghost use Rattle.rsml_meaning.specs.Worlds.{IsWorld};
ghost use Rattle.rsml_meaning.specs.Chains.{Ends};
ghost use Rattle.rsml_meaning.specs.Certified.{Certified};
ghost use Rattle.rsml_meaning.specs.MicroSteps.{IsDeterminate};
ghost use Rattle.macros.specs.Known.{Knows};
ghost use Rattle.micro_step.specs.Micros.{AreEvents, IsMicro, events_in};
ghost use Rattle.micro_step.specs.Numbers.{IsFor, left_by, of_cases, sent_at, taken_at};

use crate::moves::enter_all;
use crate::raising::raise_all;
use crate::scratch::Scratch;
use elaborate::Machine;
use event_graph::Events;
use rsml_meaning::{micro_steps_have_one_result, rounds_are_determinate};
use rsml_syntax::World;

/// One micro-step from a world on the events of a set, but for the moves: what is enabled is read in the world, and the set is
/// then that of the events that are raised. `enter_all` with the taken transitions leaves the world after the micro-step; until
/// then the world can be asked what was read in it.
pub fn react(machine: &Machine<'_>, scratch: &mut Scratch, world: &World, events: &mut Events)
    requires world { IsWorld machine.now.base.spec world.now }
    requires made { IsFor machine.now scratch.old }
    requires events { AreEvents machine.now.base.spec events.old }
    ensures micro { IsMicro machine.now.base.spec world.now events.old scratch.new.taken.items
        scratch.new.sent.items (of_cases scratch.new.values scratch.new.sent.items)
        (left_by machine.now world.now scratch.new.taken.items) events.new }
    ensures taken { scratch.new.taken.items ≡ taken_at machine.now world.now events.old }
    ensures sent { scratch.new.sent.items ≡ sent_at machine.now world.now events.old }
    ensures certified { Certified machine.now.base.spec → (x : Instance) (n : ℕ)
        → Each (Ends machine.now.base.spec x n) (events_in machine.now.base.spec events.old)
        → IsDeterminate machine.now.base.spec world.now x n (events_in machine.now.base.spec events.old)
        × Each (Ends machine.now.base.spec x (suc n)) (events_in machine.now.base.spec events.new) }
    ensures left { IsWorld machine.now.base.spec (left_by machine.now world.now scratch.new.taken.items) }
    ensures knows { Knows machine.now.base world.now scratch.new.memo }
    ensures made { IsFor machine.now scratch.new }
    ensures events { AreEvents machine.now.base.spec events.new }
{
    machine.law();
    micro_steps_have_one_result();
    rounds_are_determinate();
    scratch.read(machine, world, events);
    raise_all(machine, scratch.taken(), events);
}

/// One micro-step from a world on the events of a set: what is enabled is read in the world; then the moves are entered one
/// after another, and the set is that of the events that are raised.
pub fn micro(machine: &Machine<'_>, scratch: &mut Scratch, world: &mut World, events: &mut Events)
    requires world { IsWorld machine.now.base.spec world.old }
    requires made { IsFor machine.now scratch.old }
    requires events { AreEvents machine.now.base.spec events.old }
    ensures micro { IsMicro machine.now.base.spec world.old events.old scratch.new.taken.items
        scratch.new.sent.items (of_cases scratch.new.values scratch.new.sent.items) world.new events.new }
    ensures taken { scratch.new.taken.items ≡ taken_at machine.now world.old events.old }
    ensures sent { scratch.new.sent.items ≡ sent_at machine.now world.old events.old }
    ensures certified { Certified machine.now.base.spec → (x : Instance) (n : ℕ)
        → Each (Ends machine.now.base.spec x n) (events_in machine.now.base.spec events.old)
        → IsDeterminate machine.now.base.spec world.old x n (events_in machine.now.base.spec events.old)
        × Each (Ends machine.now.base.spec x (suc n)) (events_in machine.now.base.spec events.new) }
    ensures world { IsWorld machine.now.base.spec world.new }
    ensures made { IsFor machine.now scratch.new }
    ensures events { AreEvents machine.now.base.spec events.new }
{
    react(machine, scratch, world, events);
    enter_all(machine, &mut world.choices, scratch.taken());
}
