ghost use Rattle.std.specs.Prelude.{◌≡◌, ◌<◌, ◌∷◌, [], Some, length, slice_get};
ghost use Rattle.rsml_meaning.specs.Interfaces.{ReceiveInstance, receives};
ghost use Rattle.micro_step.specs.Micros.{AreEvents, events_in};

use elaborate::Machine;
use event_graph::Events;

/// The set of the event that a receive raises.
pub fn raised(machine: &Machine<'_>, receive: u32) -> Events
    requires { receive < length (receives machine.now.base.spec) }
    ensures events { AreEvents machine.now.base.spec result }
    ensures one { (x : ReceiveInstance) → slice_get (receives machine.now.base.spec) receive ≡ Some x
        → events_in machine.now.base.spec result ≡ x.raised ∷ [] }
{
    let event = machine.interfaces().raised(receive);
    let _count = machine.events();
    let mut events = Events::new();
    events.put(event as usize);
    events
}
