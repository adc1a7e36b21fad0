//! Rounds of a step on an external event.
ghost use Rattle.std.specs.Prelude.{◌≡◌, ◌<◌, ◌≤◌, ℕ, [], All, IfOk, IsTrue, MatchOption, length};
ghost use Rattle.rsml_meaning.specs.Certified.{Certified};
ghost use Rattle.rsml_meaning.specs.Instances as instances;
ghost use Rattle.event_graph.specs.Sets.{has};
ghost use Rattle.guard_encode.specs.Encoding.{Keeps};
ghost use Rattle.micro_step.specs.Micros.{AreEvents};
ghost use Rattle.ground_claims.specs.StandsFor.{HasStates};
ghost use Rattle.invariants.specs.Safe.{AreKnown, FindsFirst, IsFirstAfter, IsIn, IsOfKnown, IsSafeStart};
ghost use Rattle.invariants.specs.Told.{TellClaims};

use crate::found::{Broken, Found};
use crate::subsets::first_broken;
use bdd_core::Ref;
use elaborate::Machine;
use event_chains::{Chains, Rounds};
use event_graph::Events;
use ground_claims::GroundClaim;
use guard_encode::Encoder;
use rsml_base::NoMemory;
use std::alloc::Global;

/// The events of a round, of so many events.
fn events_of(rounds: &Rounds<'_>, count: u32) -> Events
    requires count { count ≡ length (instances.events rounds.now.spec) }
    requires few { count ≤ 1024 }
    ensures events { AreEvents rounds.now.spec result }
    ensures has { (q : ℕ) → q < count → has result q ≡ has rounds.now.ends q }
{
    let mut events = Events::new();
    for event in 0..count {
        if rounds.has(event) {
            events.put(event as usize);
        }
    }
    events
}

/// Whether some known set has all events of a set.
fn is_known(known: &[Events], events: &Events) -> bool
    ensures { IsTrue result → IsOfKnown known.now (has events.now) }
{
    for set in known {
        if events.is_within(set) {
            return true;
        }
    }
    false
}

/// The first set of events of these that is not safe. Where all are, that is known from then on, and asked no more.
fn first_unknown(
    alloc: Global,
    encoder: &mut Encoder<'_, '_>,
    machine: &Machine<'_>,
    claims: &[GroundClaim],
    before: &[Ref],
    known: &mut Vec<Events>,
    events: &Events,
) -> Result<Option<Broken>, NoMemory>
    requires machine { encoder.old.machine ≡ machine.now }
    requires there { All (HasStates machine.now.base.spec) claims.now }
    requires before { TellClaims machine.now encoder.old [] claims.now before.now }
    requires known { AreKnown machine.now claims.now known.old.items }
    requires events { AreEvents machine.now.base.spec events.now }
    ensures keeps { Keeps encoder.old encoder.new }
    ensures known { AreKnown machine.now claims.now known.new.items }
    ensures answer { IfOk result (FindsFirst machine.now claims.now (IsIn (has events.now))) }
{
    if is_known(known.as_slice(), events) {
        return Ok(None);
    }
    let found = first_broken(alloc, encoder, machine, claims, before, events)?;
    match found {
        Some(broken) => Ok(Some(broken)),
        None => {
            known.push(*events)?;
            Ok(None)
        }
    }
}

/// What is found first after the event of a number, if it is external: the first round in which some set is not safe.
pub fn first_after(
    alloc: Global,
    encoder: &mut Encoder<'_, '_>,
    machine: &Machine<'_>,
    chains: &Chains<'_>,
    claims: &[GroundClaim],
    before: &[Ref],
    known: &mut Vec<Events>,
    start: u32,
) -> Result<Option<Found>, NoMemory>
    requires machine { encoder.old.machine ≡ machine.now }
    requires chains { chains.now ≡ machine.now.base.spec }
    requires certified { Certified machine.now.base.spec }
    requires there { All (HasStates machine.now.base.spec) claims.now }
    requires before { TellClaims machine.now encoder.old [] claims.now before.now }
    requires known { AreKnown machine.now claims.now known.old.items }
    requires start { start < length (instances.events machine.now.base.spec) }
    ensures keeps { Keeps encoder.old encoder.new }
    ensures known { AreKnown machine.now claims.now known.new.items }
    ensures answer { IfOk result (λ found. MatchOption found (IsSafeStart machine.now claims.now start) (IsFirstAfter machine.now claims.now start)) }
{
    if !machine.external(start) {
        return Ok(None);
    }
    let count = machine.events();
    let rounds_there = chains.length(start).unwrap_or(0);
    let mut rounds = Rounds::new(chains);
    rounds.first(start);
    for done in 0..rounds_there {
        let events = events_of(&rounds, count);
        let found = first_unknown(alloc, encoder, machine, claims, before, known, &events)?;
        match found {
            Some(broken) => {
                return Ok(Some(Found {
                    start,
                    round: done + 1,
                    broken,
                }));
            }
            None => rounds.next(),
        }
    }
    Ok(None)
}
