ghost use Rattle.std.specs.Prelude.{◌≡◌, ◌<◌, ◌==◌, ◌||◌, ◌&&◌, ℕ, [], length};
ghost use Rattle.rsml_meaning.specs.Instances.{events};
ghost use Rattle.rsml_meaning.specs.Worlds.{IsWorld};
ghost use Rattle.elaborate.specs.Enabled.{is_enabled, is_sending};
ghost use Rattle.micro_step.specs.Candidates.{ArePrepared};
ghost use Rattle.micro_step.specs.Micros.{AreEvents};
ghost use Rattle.micro_step.specs.Numbers.{IsReading, sent_at, taken_at};
ghost use Rattle.micro_step.specs.Places.{passes};
ghost use Rattle.micro_step.specs.Rising.{among};

use crate::candidates::put_enabled;
use crate::learning::learn_all;
use crate::prepared::Prepared;
use crate::rising::Rising;
use elaborate::Machine;
use event_graph::Events;
use macros::Memo;
use rsml_syntax::World;

/// What is read in a world: the truths of phrases and of the guards of transitions that are known, and the numbers of the
/// transitions and of the cases of sends that are enabled.
pub struct Reading {
    pub memo: Memo,
    pub guards: Memo,
    pub taken: Rising,
    pub sent: Rising,
}

impl Drop for Reading {
    fn drop(self) {
        let Self {
            memo: _,
            guards: _,
            taken: _,
            sent: _,
        } = self;
    }
}

impl Reading {
    /// Reads what is enabled on an event.
    fn read_on(&mut self, machine: &Machine<'_>, world: &World, prepared: &[Prepared], event: usize)
        requires world { IsWorld machine.now.base.spec world.now }
        requires prepared { ArePrepared machine.now prepared.now }
        requires event { event < length (events machine.now.base.spec) }
        requires reading { IsReading machine.now world.now self.old }
        ensures reading { IsReading machine.now world.now self.new }
        ensures taken { (q : ℕ) → among self.new.taken.items q ≡ (among self.old.taken.items q
            || passes (λ x. x.event == event && is_enabled machine.now world.now x) machine.now.transitions q) }
        ensures sent { (q : ℕ) → among self.new.sent.items q ≡ (among self.old.sent.items q
            || passes (λ x. x.event == event && is_sending machine.now world.now x) machine.now.send_cases q) }
    {
        let there = &prepared[event];
        learn_all(machine, world, &mut self.memo, there.states.as_slice());
        put_enabled(
            machine,
            world,
            &mut self.memo,
            &mut self.guards,
            there.transitions.as_slice(),
            &mut self.taken,
        );
        put_enabled(
            machine,
            world,
            &mut self.memo,
            &mut self.guards,
            there.cases.as_slice(),
            &mut self.sent,
        );
    }

    /// Reads what is enabled on the events of a set.
    pub fn read_all(
        &mut self,
        machine: &Machine<'_>,
        world: &World,
        prepared: &[Prepared],
        present: &Events,
    )
        requires world { IsWorld machine.now.base.spec world.now }
        requires prepared { ArePrepared machine.now prepared.now }
        requires present { AreEvents machine.now.base.spec present.now }
        requires reading { IsReading machine.now world.now self.old }
        requires none_taken { self.old.taken.items ≡ [] }
        requires none_sent { self.old.sent.items ≡ [] }
        ensures reading { IsReading machine.now world.now self.new }
        ensures taken { self.new.taken.items ≡ taken_at machine.now world.now present.now }
        ensures sent { self.new.sent.items ≡ sent_at machine.now world.now present.now }
    {
        let count = machine.events() as usize;
        let mut from = 0;
        while let Some(event) = present.next_below(from, count) {
            self.read_on(machine, world, prepared, event);
            from = event + 1;
        }
    }
}
