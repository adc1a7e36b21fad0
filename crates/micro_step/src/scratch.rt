ghost use Rattle.std.specs.Prelude.{◌≡◌, ◌<◌, [], IfOk, length, map, slice_index_or};
ghost use Rattle.rsml_meaning.specs.Words.{Each};
ghost use Rattle.rsml_meaning.specs.Worlds.{IsWorld};
ghost use Rattle.rsml_syntax.specs.declared.world.World.{World as WorldValue};
ghost use Rattle.macros.specs.Known.{Knows};
ghost use Rattle.micro_step.specs.Micros.{AreEvents};
ghost use Rattle.micro_step.specs.Numbers.{AreOfCase, HaveRoom, IsFor, sent_at, taken_at, values_of};
ghost use Rattle.micro_step.specs.Rows.{bits_of, member_rows};

use crate::prepared::{Prepared, on_events};
use crate::reading::Reading;
use crate::rising::Rising;
use crate::rows::member_rows;
use crate::values::write_all;
use elaborate::Machine;
use event_graph::Events;
use ground_groups::Member;
use ground_members::GroundAnswer;
use macros::Memo;
use rsml_syntax::{NoMemory, World};
use std::alloc::Global;
use std::marker::Model;

/// What a machine keeps for its micro-steps: what is known of the phrases and of the guards of transitions, the taken
/// transitions, the send cases that are enabled, and their values; and for each event what may be enabled on it. Only `new`
/// takes memory.
pub struct Scratch {
    reading: Reading,
    values: Vec<Vec<i64>>,
    prepared: Vec<Prepared>,
}

impl Drop for Scratch {
    fn drop(self) {
        let Self {
            reading: _,
            values: _,
            prepared: _,
        } = self;
    }
}

impl Model for Scratch {
    ghost use Rattle.std.specs.Prelude.{◌≡◌, length, map};
    ghost use Rattle.micro_step.specs.Numbers.{Kept};

    ghost Value = { Kept };

    ghost view = { λ s. record {
      memo = s.reading.memo;
      guards = s.reading.guards;
      taken = s.reading.taken;
      sent = s.reading.sent;
      values = map (λ v. v.items) s.values.items;
      prepared = s.prepared.items;
    } };

    ghost invariant = { λ s. length s.values.items ≡ s.reading.sent.below };
}

/// How many values an answer has.
fn count(answer: &GroundAnswer) -> usize
    ensures { result ≡ length (values_of answer.now) }
{
    match answer {
        GroundAnswer::Quiet => 0,
        GroundAnswer::Values(values) => values.len(),
    }
}

/// Room for the values of all cases of sends.
fn room(alloc: Global, machine: &Machine<'_>) -> Result<Vec<Vec<i64>>, NoMemory>
    ensures { IfOk result (λ values. HaveRoom machine.now (map (λ v. v.items) values.items)) }
{
    let mut values = Vec::new(alloc);
    for case in 0..machine.send_cases() {
        let many = count(machine.send_case(case).answer());
        values.push(Vec::from_elem(alloc, 0, many)?)?;
    }
    Ok(values)
}

impl Scratch {
    /// Room for the micro-steps of a machine.
    pub fn new(alloc: Global, machine: &Machine<'_>) -> Result<Scratch, NoMemory>
        ensures made { IfOk result (λ scratch. IsFor machine.now scratch) }
        ensures none_taken { IfOk result (λ scratch. scratch.taken.items ≡ []) }
        ensures none_sent { IfOk result (λ scratch. scratch.sent.items ≡ []) }
        ensures knows { IfOk result (λ scratch. (w : WorldValue) → Knows machine.now.base w scratch.memo) }
    {
        let memo = Memo::new(alloc, machine.macros().phrases())?;
        let guards = Memo::new(alloc, machine.transitions())?;
        let taken = Rising::new(alloc, machine.transitions())?;
        let sent = Rising::new(alloc, machine.send_cases())?;
        let reading = Reading {
            memo,
            guards,
            taken,
            sent,
        };
        let values = room(alloc, machine)?;
        let prepared = on_events(alloc, machine)?;
        Ok(Scratch {
            reading,
            values,
            prepared,
        })
    }

    /// The numbers of the transitions that the last micro-step took, rising.
    pub fn taken(&self) -> &[u32]
        ensures { result.now ≡ self.now.taken.items }
    {
        self.reading.taken.as_slice()
    }

    /// The numbers of the cases of sends that were enabled in the last micro-step, rising.
    pub fn sent(&self) -> &[u32]
        ensures { result.now ≡ self.now.sent.items }
    {
        self.reading.sent.as_slice()
    }

    /// The values of the send case at a place of `sent`; none where that is quiet.
    pub fn values(&self, place: usize) -> &[i64]
        requires { place < length self.now.sent.items }
        ensures { result.now ≡ slice_index_or self.now.values (slice_index_or self.now.sent.items place 0) [] }
    {
        let case = self.reading.sent.as_slice()[place];
        self.values[case as usize].as_slice()
    }

    /// The truths of the rows of a member's table in the world that was read last: bit k, from 0, is that of row k + 1. 0 for a
    /// guard `always`, and where there is no such member. What is not known of the phrases yet is worked out, and known from
    /// then on.
    pub fn rows(&mut self, machine: &Machine<'_>, world: &World, member: Member) -> u64
        requires world { IsWorld machine.now.base.spec world.now }
        requires knows { Knows machine.now.base world.now self.old.memo }
        ensures rows { result ≡ bits_of (member_rows machine.now.base.spec world.now member) }
        ensures knows { Knows machine.now.base world.now self.new.memo }
        ensures rest { self.new ≡ record self.old { memo = self.new.memo } }
    {
        let _ = &self.reading;
        member_rows(machine, world, &mut self.reading.memo, member)
    }

    /// Reads what is enabled in a world on the events of a set, and what is sent.
    pub(crate) fn read(&mut self, machine: &Machine<'_>, world: &World, present: &Events)
        requires world { IsWorld machine.now.base.spec world.now }
        requires made { IsFor machine.now self.old }
        requires present { AreEvents machine.now.base.spec present.now }
        ensures taken { self.new.taken.items ≡ taken_at machine.now world.now present.now }
        ensures sent { self.new.sent.items ≡ sent_at machine.now world.now present.now }
        ensures values { Each (AreOfCase machine.now world.now self.new.values) self.new.sent.items }
        ensures knows { Knows machine.now.base world.now self.new.memo }
        ensures made { IsFor machine.now self.new }
    {
        self.reading.memo.forget();
        self.reading.guards.forget();
        self.reading.taken.clear();
        self.reading.sent.clear();
        self.reading
            .read_all(machine, world, self.prepared.as_slice(), present);
        write_all(
            machine,
            world,
            &mut self.reading.memo,
            self.reading.sent.as_slice(),
            &mut self.values,
        );
    }
}
