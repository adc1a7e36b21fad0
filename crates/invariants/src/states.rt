//! States, and what is asked of them, after transitions.
ghost use Rattle.std.specs.Prelude.{◌≡◌, ◌<◌, All, IfOk, length};
ghost use Rattle.std.specs.List.{list_any, list_all};
ghost use Rattle.rsml_meaning.specs.Instances.{states};
ghost use Rattle.rsml_ground.specs.Truths.{is_active};
ghost use Rattle.guard_encode.specs.Encoding.{Keeps};
ghost use Rattle.ground_claims.specs.StandsFor.{AreStates};
ghost use Rattle.ground_claims.specs.Truths.{phrase_truth};
ghost use Rattle.invariants.specs.Moves.{LeaveWorlds, after};
ghost use Rattle.invariants.specs.Told.{TellsOf};

use crate::choices::chosen_after;
use bdd_core::Ref;
use elaborate::Machine;
use ground_claims::StatePhrase;
use guard_encode::Encoder;
use rsml_base::NoMemory;
use rsml_ground::choices_around;
use std::alloc::Global;

/// Where a state is active after transitions: where each component around it has the child that leads to it.
fn active_after(
    alloc: Global,
    encoder: &mut Encoder<'_, '_>,
    machine: &Machine<'_>,
    moves: &[u32],
    node: u32,
) -> Result<Ref, NoMemory>
    requires machine { encoder.old.machine ≡ machine.now }
    requires moves { LeaveWorlds machine.now moves.now }
    requires node { node < length (states machine.now.base.spec) }
    ensures keeps { Keeps encoder.old encoder.new }
    ensures answer { IfOk result (TellsOf machine.now.base.spec encoder.new
        (λ w. is_active machine.now.base.spec (after machine.now moves.now w) node)) }
{
    machine.law();
    let choices = choices_around(alloc, machine.tree(), node)?;
    let around = choices.as_slice();
    let mut active = encoder.constant(true);
    for choice in around {
        let chosen = chosen_after(alloc, encoder, machine, moves, choice)?;
        active = encoder.and(active, chosen)?;
    }
    Ok(active)
}

/// Where each of these states is active after transitions.
fn every_after(
    alloc: Global,
    encoder: &mut Encoder<'_, '_>,
    machine: &Machine<'_>,
    moves: &[u32],
    nodes: &[u32],
) -> Result<Ref, NoMemory>
    requires machine { encoder.old.machine ≡ machine.now }
    requires moves { LeaveWorlds machine.now moves.now }
    requires nodes { All (λ node. node < length (states machine.now.base.spec)) nodes.now }
    ensures keeps { Keeps encoder.old encoder.new }
    ensures answer { IfOk result (TellsOf machine.now.base.spec encoder.new
        (λ w. list_all (is_active machine.now.base.spec (after machine.now moves.now w)) nodes.now)) }
{
    let mut every = encoder.constant(true);
    for node in nodes {
        let active = active_after(alloc, encoder, machine, moves, *node)?;
        every = encoder.and(every, active)?;
    }
    Ok(every)
}

/// Where some of these states is active after transitions.
fn any_after(
    alloc: Global,
    encoder: &mut Encoder<'_, '_>,
    machine: &Machine<'_>,
    moves: &[u32],
    nodes: &[u32],
) -> Result<Ref, NoMemory>
    requires machine { encoder.old.machine ≡ machine.now }
    requires moves { LeaveWorlds machine.now moves.now }
    requires nodes { All (λ node. node < length (states machine.now.base.spec)) nodes.now }
    ensures keeps { Keeps encoder.old encoder.new }
    ensures answer { IfOk result (TellsOf machine.now.base.spec encoder.new
        (λ w. list_any (is_active machine.now.base.spec (after machine.now moves.now w)) nodes.now)) }
{
    let mut any = encoder.constant(false);
    for node in nodes {
        let active = active_after(alloc, encoder, machine, moves, *node)?;
        any = encoder.or(any, active)?;
    }
    Ok(any)
}

/// Where what a row of a claim asks of states is true after transitions.
pub fn phrase_after(
    alloc: Global,
    encoder: &mut Encoder<'_, '_>,
    machine: &Machine<'_>,
    moves: &[u32],
    phrase: &StatePhrase,
) -> Result<Ref, NoMemory>
    requires machine { encoder.old.machine ≡ machine.now }
    requires moves { LeaveWorlds machine.now moves.now }
    requires there { AreStates machine.now.base.spec phrase.now }
    ensures keeps { Keeps encoder.old encoder.new }
    ensures answer { IfOk result (TellsOf machine.now.base.spec encoder.new
        (λ w. phrase_truth (is_active machine.now.base.spec (after machine.now moves.now w)) phrase.now)) }
{
    match phrase {
        StatePhrase::Every(nodes) => every_after(alloc, encoder, machine, moves, nodes.as_slice()),
        StatePhrase::Any(nodes) => any_after(alloc, encoder, machine, moves, nodes.as_slice()),
    }
}
