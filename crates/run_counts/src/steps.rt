ghost use Rattle.std.specs.Prelude.{◌≡◌, ◌≢◌, ◌+◌, ◌<◌, ◌≤◌, ◌^◌, ℕ, suc, true, false, [], length};
ghost use Rattle.rsml_meaning.specs.Words.{Each, Instance};
ghost use Rattle.rsml_meaning.specs.Certified.{Certified};
ghost use Rattle.rsml_meaning.specs.Chains.{Ends};
ghost use Rattle.micro_step.specs.Micros.{AreEvents, events_in};
ghost use Rattle.reactions.specs.Stepping.{IsExternal};
ghost use Rattle.run_counts.specs.Ready.{IsReady};
ghost use Rattle.run_counts.specs.Series.{RoundIsCounted, StepIsCounted};

use crate::moves::moves_among;
use crate::progress::Progress;
use elaborate::Machine;
use event_graph::Events;
use micro_step::micro;

/// Does a round on the events of a set, and counts it. Whether it leaves an event.
fn count_round(machine: &Machine<'_>, progress: &mut Progress, events: &mut Events) -> bool
    requires ready { IsReady machine.now progress.old }
    requires room { progress.old.counts.rounds + 1 < 2 ^ 48 }
    requires events { AreEvents machine.now.base.spec events.old }
    ensures ready { IsReady machine.now progress.new }
    ensures counted { RoundIsCounted machine.now.base.spec
        progress.old.world (events_in machine.now.base.spec events.old)
        progress.new.world (events_in machine.now.base.spec events.new)
        progress.old.counts progress.new.counts }
    ensures longer { Certified machine.now.base.spec → (x : Instance) (n : ℕ)
        → Each (Ends machine.now.base.spec x n) (events_in machine.now.base.spec events.old)
        → Each (Ends machine.now.base.spec x (suc n)) (events_in machine.now.base.spec events.new) }
    ensures some { result ≡ true → events_in machine.now.base.spec events.new ≢ [] }
    ensures none { result ≡ false → events_in machine.now.base.spec events.new ≡ [] }
    ensures events { AreEvents machine.now.base.spec events.new }
{
    machine.law();
    micro(machine, &mut progress.scratch, &mut progress.world, events);
    let taken = progress.scratch.taken();
    let takes = taken.len() as u64;
    let moves = moves_among(machine, taken);
    progress.counts.rounds += 1;
    progress.counts.takes += takes;
    progress.counts.moves += moves;
    events.next(0).is_some()
}

/// Does the step on an external event, the one of a set, and counts its rounds, until no event is left. There are no more of them
/// than there are events, as none loops.
pub fn count_step(machine: &Machine<'_>, progress: &mut Progress, mut events: Events)
    requires certified { Certified machine.now.base.spec }
    requires ready { IsReady machine.now progress.old }
    requires room { progress.old.counts.rounds + 1024 < 2 ^ 48 }
    requires events { AreEvents machine.now.base.spec events }
    requires external { IsExternal machine.now.base.spec (events_in machine.now.base.spec events) }
    ensures ready { IsReady machine.now progress.new }
    ensures counted { StepIsCounted machine.now.base.spec
        progress.old.world (events_in machine.now.base.spec events) progress.new.world
        progress.old.counts progress.new.counts }
    ensures few { progress.new.counts.rounds ≤ progress.old.counts.rounds + 1024 }
{
    machine.law();
    let count = machine.events();
    for _turn in 0..count {
        if !count_round(machine, progress, &mut events) {
            return;
        }
    }
}
