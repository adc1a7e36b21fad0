ghost use Rattle.std.specs.Prelude.{◌≡◌, ◌+◌, ◌*◌, ◌<◌, ◌≤◌, ◌^◌, IfSome, Some, length, slice_get};
ghost use Rattle.rsml_meaning.specs.Certified.{Certified};
ghost use Rattle.rsml_meaning.specs.Interfaces.{ReceiveInstance, receives};
ghost use Rattle.interfaces.specs.Writes.{AreTyped};
ghost use Rattle.simulator.specs.helpers.Kept.{HoldsNumbers};
ghost use Rattle.simulator.specs.helpers.Turns.{message_of};
ghost use Rattle.run_counts.specs.Ready.{IsReady};
ghost use Rattle.run_counts.specs.Series.{EventIsCounted};

use crate::progress::Progress;
use crate::raising::raised;
use crate::steps::count_step;
use elaborate::Machine;

/// Does the step of a message, the numbers of a receive, and counts it.
fn count_event(machine: &Machine<'_>, progress: &mut Progress, receive: u32, numbers: &[i64])
    requires certified { Certified machine.now.base.spec }
    requires ready { IsReady machine.now progress.old }
    requires room { progress.old.counts.events + 1 < 2 ^ 36 }
    requires few { progress.old.counts.rounds ≤ 1024 * progress.old.counts.events }
    requires there { receive < length (receives machine.now.base.spec) }
    requires typed { IfSome (slice_get (receives machine.now.base.spec) receive) (λ x.
        AreTyped machine.now.base.spec x.inputs numbers.now) }
    ensures ready { IsReady machine.now progress.new }
    ensures one { progress.new.counts.events ≡ progress.old.counts.events + 1 }
    ensures few { progress.new.counts.rounds ≤ 1024 * progress.new.counts.events }
    ensures counted { IfSome (slice_get (receives machine.now.base.spec) receive) (λ x.
        EventIsCounted machine.now.base.spec (record { receive = x; numbers = numbers.now })
        progress.old.world progress.new.world progress.old.counts progress.new.counts) }
{
    let interfaces = machine.interfaces();
    interfaces.latch(&mut progress.world, receive, numbers);
    let events = raised(machine, receive);
    count_step(machine, progress, events);
    progress.counts.events += 1;
}

/// Does the step of a message whose numbers are the first of the values, and counts it.
pub fn count_told(machine: &Machine<'_>, progress: &mut Progress, receive: u32, values: &[i64])
    requires certified { Certified machine.now.base.spec }
    requires ready { IsReady machine.now progress.old }
    requires room { progress.old.counts.events + 1 < 2 ^ 36 }
    requires few { progress.old.counts.rounds ≤ 1024 * progress.old.counts.events }
    requires there { receive < length (receives machine.now.base.spec) }
    requires holds { IfSome (slice_get (receives machine.now.base.spec) receive) (λ x.
        HoldsNumbers machine.now.base.spec x values.now) }
    ensures ready { IsReady machine.now progress.new }
    ensures one { progress.new.counts.events ≡ progress.old.counts.events + 1 }
    ensures few { progress.new.counts.rounds ≤ 1024 * progress.new.counts.events }
    ensures counted { (x : ReceiveInstance) → slice_get (receives machine.now.base.spec) receive ≡ Some x →
        EventIsCounted machine.now.base.spec (message_of x values.now)
        progress.old.world progress.new.world progress.old.counts progress.new.counts }
{
    let fields = machine.interfaces().fields(receive) as usize;
    count_event(machine, progress, receive, &values[..fields]);
}
