ghost use Rattle.std.specs.Prelude.{◌≡◌, ◌<◌, ◌∷◌, [], Some, length, slice_get};
ghost use Rattle.rsml_meaning.specs.Interfaces.{ReceiveInstance, receives};
ghost use Rattle.micro_step.specs.Micros.{AreEvents, events_in};

use elaborate::Machine;
use event_graph::Events;

/// Puts the event that a receive raises in the place of those of a set.
pub fn raise(machine: &Machine<'_>, receive: u32, present: &mut Events)
    requires { receive < length (receives machine.now.base.spec) }
    ensures events { AreEvents machine.now.base.spec present.new }
    ensures one { (x : ReceiveInstance) → slice_get (receives machine.now.base.spec) receive ≡ Some x
        → events_in machine.now.base.spec present.new ≡ x.raised ∷ [] }
{
    let event = machine.interfaces().raised(receive);
    let _count = machine.events();
    present.clear();
    present.put(event as usize);
}
