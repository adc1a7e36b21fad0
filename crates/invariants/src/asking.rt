//! From which worlds a micro-step on the events of a set turns claims false.
ghost use Rattle.std.specs.Prelude.{◌≡◌, [], Bool, ◌&&◌, not, All, IfOk, List as Items, MatchOption};
ghost use Rattle.rsml_syntax.specs.declared.syntax.Spec.{Spec};
ghost use Rattle.rsml_syntax.specs.declared.world.World.{World as SpecWorld};
ghost use Rattle.bdd_core.specs.Diagram.{IsRef};
ghost use Rattle.event_graph.specs.Sets.{has};
ghost use Rattle.guard_encode.specs.Encoding.{Keeps};
ghost use Rattle.group_verdicts.specs.Least.{IsLeastWorld};
ghost use Rattle.micro_step.specs.Micros.{AreEvents};
ghost use Rattle.ground_claims.specs.StandsFor.{HasStates};
ghost use Rattle.invariants.specs.Asked.{breaks, turn_false};
ghost use Rattle.invariants.specs.Moves.{LeaveWorlds};
ghost use Rattle.invariants.specs.Safe.{IsSafe};
ghost use Rattle.invariants.specs.Told.{DecidesOf, TellAll, TellClaims, TellsOf, all_at};

use crate::claimed::claim_after;
use crate::moves::moves_on;
use bdd_core::Ref;
use elaborate::Machine;
use event_graph::Events;
use ground_claims::GroundClaim;
use group_verdicts::least_world;
use guard_encode::Encoder;
use rsml_base::NoMemory;
use rsml_syntax::World;
use std::alloc::Global;

/// Where one is true, and each of others.
fn and_all(encoder: &mut Encoder<'_, '_>, one: Ref, others: &[Ref]) -> Result<Ref, NoMemory>
    requires one { IsRef encoder.old.diagram one }
    requires others { All (IsRef encoder.old.diagram) others.now }
    ensures keeps { Keeps encoder.old encoder.new }
    ensures is_ref { IfOk result (IsRef encoder.new.diagram) }
    ensures answer { IfOk result (λ r. (s : Spec) (truth : SpecWorld → Bool) (truths : Items (SpecWorld → Bool))
        → TellsOf s encoder.old truth one → TellAll s encoder.old truths others.now
        → TellsOf s encoder.new (λ w. truth w && all_at truths w) r) }
{
    let mut all = one;
    for other in others {
        all = encoder.and(all, *other)?;
    }
    Ok(all)
}

/// Where all claims are true, and one of them is not afterwards. What is told of that one comes first, so what stays true is found
/// to be false everywhere at once.
fn turns_false(
    alloc: Global,
    encoder: &mut Encoder<'_, '_>,
    claims: &[Ref],
    before: Ref,
    after: Ref,
) -> Result<Ref, NoMemory>
    requires claims { All (IsRef encoder.old.diagram) claims.now }
    requires before { IsRef encoder.old.diagram before }
    requires after { IsRef encoder.old.diagram after }
    ensures keeps { Keeps encoder.old encoder.new }
    ensures is_ref { IfOk result (IsRef encoder.new.diagram) }
    ensures answer { IfOk result (λ r. (s : Spec) (one other : SpecWorld → Bool) (truths : Items (SpecWorld → Bool))
        → TellsOf s encoder.old one before → TellsOf s encoder.old other after → TellAll s encoder.old truths claims.now
        → TellsOf s encoder.new (λ w. (not (other w) && one w) && all_at truths w) r) }
{
    let never = encoder.not(after)?;
    let turned = encoder.and(never, before)?;
    let all = and_all(encoder, turned, claims)?;
    encoder.decided(alloc, all)
}

/// Where all claims are true, and not all after these transitions.
fn turning(
    alloc: Global,
    encoder: &mut Encoder<'_, '_>,
    machine: &Machine<'_>,
    claims: &[GroundClaim],
    before: &[Ref],
    moves: &[u32],
) -> Result<Ref, NoMemory>
    requires machine { encoder.old.machine ≡ machine.now }
    requires there { All (HasStates machine.now.base.spec) claims.now }
    requires before { TellClaims machine.now encoder.old [] claims.now before.now }
    requires moves { LeaveWorlds machine.now moves.now }
    ensures keeps { Keeps encoder.old encoder.new }
    ensures answer { IfOk result (DecidesOf machine.now.base.spec encoder.new (turn_false machine.now claims.now moves.now)) }
{
    let mut some = encoder.constant(false);
    for place in 0..claims.len() {
        let after = claim_after(alloc, encoder, machine, moves, &claims[place])?;
        let turned = turns_false(alloc, encoder, before, before[place], after)?;
        some = encoder.or(some, turned)?;
    }
    encoder.decided(alloc, some)
}

/// The least world from which a micro-step on the events of a set turns the claims false, if there is one.
pub fn least_broken(
    alloc: Global,
    encoder: &mut Encoder<'_, '_>,
    machine: &Machine<'_>,
    claims: &[GroundClaim],
    before: &[Ref],
    events: &Events,
) -> Result<Option<World>, NoMemory>
    requires machine { encoder.old.machine ≡ machine.now }
    requires there { All (HasStates machine.now.base.spec) claims.now }
    requires before { TellClaims machine.now encoder.old [] claims.now before.now }
    requires events { AreEvents machine.now.base.spec events.now }
    ensures keeps { Keeps encoder.old encoder.new }
    ensures answer { IfOk result (λ found. MatchOption found (IsSafe machine.now claims.now (has events.now))
        (IsLeastWorld machine.now.base.spec (breaks machine.now claims.now (has events.now)))) }
{
    machine.law();
    let moves = moves_on(alloc, machine, events)?;
    let turning = turning(alloc, encoder, machine, claims, before, moves.as_slice())?;
    least_world(alloc, encoder, turning)
}
