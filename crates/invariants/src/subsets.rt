//! Sets of events one after another: of two that agree before an event, the one without it comes first.
ghost use Rattle.std.specs.Prelude.{◌≡◌, ◌≤◌, ℕ, [], false, All, IfOk};
ghost use Rattle.event_graph.specs.Sets.{has};
ghost use Rattle.guard_encode.specs.Encoding.{Keeps};
ghost use Rattle.micro_step.specs.Micros.{AreEvents};
ghost use Rattle.ground_claims.specs.StandsFor.{HasStates};
ghost use Rattle.invariants.specs.Safe.{FindsFirst, Fits, IsIn};
ghost use Rattle.invariants.specs.Told.{TellClaims};

use crate::asking::least_broken;
use crate::found::Broken;
use bdd_core::Ref;
use elaborate::Machine;
use event_graph::Events;
use ground_claims::GroundClaim;
use guard_encode::Encoder;
use rsml_base::NoMemory;
use std::alloc::Global;

/// The set of the present events, if it is not safe. No others fit where none of the given events comes from a number on.
fn present_broken(
    alloc: Global,
    encoder: &mut Encoder<'_, '_>,
    machine: &Machine<'_>,
    claims: &[GroundClaim],
    before: &[Ref],
    events: &Events,
    present: &Events,
    from: usize,
) -> Result<Option<Broken>, NoMemory>
    requires machine { encoder.old.machine ≡ machine.now }
    requires there { All (HasStates machine.now.base.spec) claims.now }
    requires before { TellClaims machine.now encoder.old [] claims.now before.now }
    requires present { AreEvents machine.now.base.spec present.now }
    requires front { (q : ℕ) → from ≤ q → has present.now q ≡ false }
    requires rest { (q : ℕ) → from ≤ q → has events.now q ≡ false }
    ensures keeps { Keeps encoder.old encoder.new }
    ensures answer { IfOk result (FindsFirst machine.now claims.now (Fits (has events.now) (has present.now) from)) }
{
    let least = least_broken(alloc, encoder, machine, claims, before, present)?;
    match least {
        Some(world) => Ok(Some(Broken {
            events: *present,
            world,
        })),
        None => Ok(None),
    }
}

/// The first set that is not safe, of those that agree with the present events below a number and are of the given ones from there
/// on.
fn first_from(
    alloc: Global,
    encoder: &mut Encoder<'_, '_>,
    machine: &Machine<'_>,
    claims: &[GroundClaim],
    before: &[Ref],
    events: &Events,
    present: &Events,
    from: usize,
) -> Result<Option<Broken>, NoMemory>
    requires machine { encoder.old.machine ≡ machine.now }
    requires there { All (HasStates machine.now.base.spec) claims.now }
    requires before { TellClaims machine.now encoder.old [] claims.now before.now }
    requires events { AreEvents machine.now.base.spec events.now }
    requires present { IsIn (has events.now) (has present.now) }
    requires front { (q : ℕ) → from ≤ q → has present.now q ≡ false }
    ensures keeps { Keeps encoder.old encoder.new }
    ensures answer { IfOk result (FindsFirst machine.now claims.now (Fits (has events.now) (has present.now) from)) }
{
    let Some(event) = events.next(from) else {
        return present_broken(
            alloc, encoder, machine, claims, before, events, present, from,
        );
    };
    let next = event + 1;
    let mut more = *present;
    more.put(event);
    let absent = first_from(
        alloc, encoder, machine, claims, before, events, present, next,
    )?;
    match absent {
        Some(broken) => Ok(Some(broken)),
        None => first_from(alloc, encoder, machine, claims, before, events, &more, next),
    }
}

/// The first set of events of these that is not safe.
pub fn first_broken(
    alloc: Global,
    encoder: &mut Encoder<'_, '_>,
    machine: &Machine<'_>,
    claims: &[GroundClaim],
    before: &[Ref],
    events: &Events,
) -> Result<Option<Broken>, NoMemory>
    requires machine { encoder.old.machine ≡ machine.now }
    requires there { All (HasStates machine.now.base.spec) claims.now }
    requires before { TellClaims machine.now encoder.old [] claims.now before.now }
    requires events { AreEvents machine.now.base.spec events.now }
    ensures keeps { Keeps encoder.old encoder.new }
    ensures answer { IfOk result (FindsFirst machine.now claims.now (IsIn (has events.now))) }
{
    let none = Events::new();
    first_from(alloc, encoder, machine, claims, before, events, &none, 0)
}
