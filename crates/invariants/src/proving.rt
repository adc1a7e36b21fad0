//! Whether claims are inductive.
ghost use Rattle.std.specs.Prelude.{◌≡◌, All, IfOk, List as Items, not};
ghost use Rattle.std.specs.List.{AllZip, position_from};
ghost use Rattle.rsml_meaning.specs.Certified.{Certified};
ghost use Rattle.rsml_ground.specs.Truths.{is_active};
ghost use Rattle.state_tree.specs.Numbers.{AreChoices};
ghost use Rattle.claim_syntax.specs.declared.claim.Claim.{Claim};
ghost use Rattle.ground_claims.specs.StandsFor.{ClaimIs, HasStates};
ghost use Rattle.ground_claims.specs.Truths.{claim_truth};
ghost use Rattle.invariants.specs.Proof.{IsProof};
ghost use Rattle.invariants.specs.Safe.{IsFound};
ghost use Rattle.invariants.specs.Found.{IsBreakOf};

use crate::found::{Broken, Found};
use crate::proof::{Break, Proof};
use crate::starts::first_found;
use elaborate::Machine;
use event_chains::Chains;
use ground_claims::GroundClaim;
use micro_step::{Scratch, enter_all, react};
use rsml_base::{List, NoMemory};
use rsml_syntax::World;
use state_tree::Tree;
use std::alloc::Global;

/// The place of the first claim that is false in a world.
fn first_false(tree: &Tree<'_>, claims: &[GroundClaim], world: &World) -> Option<usize>
    requires choices { AreChoices tree.now world.now.choices }
    requires there { All (HasStates tree.now) claims.now }
    ensures { result ≡ position_from (λ claim. not (claim_truth (is_active tree.now world.now) claim)) 0 claims.now }
{
    for place in 0..claims.len() {
        if !claims[place].is_true(tree, world) {
            return Some(place);
        }
    }
    None
}

/// The same items once more.
fn copied(alloc: Global, items: &[u8]) -> Result<List<u8>, NoMemory>
    ensures { IfOk result (λ copy. copy ≡ items.now) }
{
    let mut copy = List::with_capacity(alloc, items.len())?;
    for item in items {
        copy.push(*item)?;
    }
    Ok(copy)
}

/// The break that was found, with the transitions that are taken at it, and the first claim that is false after them.
fn break_of(
    alloc: Global,
    machine: &Machine<'_>,
    claims: &[GroundClaim],
    found: Found,
) -> Result<Break, NoMemory>
    requires found { IsFound machine.now claims.now found }
    requires there { All (HasStates machine.now.base.spec) claims.now }
    ensures { IfOk result (IsBreakOf machine.now claims.now found) }
{
    machine.law();
    let Found {
        start,
        round,
        broken,
    } = found;
    let Broken {
        events: present,
        mut world,
    } = broken;
    let mut scratch = Scratch::new(alloc, machine)?;
    let mut raised = present;
    react(machine, &mut scratch, &world, &mut raised);
    let choices = copied(alloc, world.choices.as_slice())?;
    enter_all(machine, &mut world.choices, scratch.taken());
    let claim = first_false(machine.tree(), claims, &world).unwrap();
    world.choices = choices;
    let taken = Vec::from_slice(alloc, scratch.taken())?;
    Ok(Break {
        start,
        round,
        present,
        world,
        taken,
        claim,
    })
}

/// Whether claims are inductive in a certified specification. Where they are not: the first of them that is false in the first world,
/// or else their least break.
pub fn inductive(
    alloc: Global,
    machine: &Machine<'_>,
    chains: &Chains<'_>,
    claims: &[GroundClaim],
) -> Result<Proof, NoMemory>
    requires chains { chains.now ≡ machine.now.base.spec }
    requires certified { Certified machine.now.base.spec }
    requires claims { (cs : Items Claim) × AllZip (ClaimIs machine.now.base.spec) cs claims.now }
    ensures { IfOk result (λ p. (cs : Items Claim) → AllZip (ClaimIs machine.now.base.spec) cs claims.now → IsProof machine.now.base.spec cs p) }
{
    machine.law();
    let first = machine.initial(alloc)?;
    if let Some(claim) = first_false(machine.tree(), claims, &first) {
        return Ok(Proof::Initial { claim });
    }
    let broken = first_found(alloc, machine, chains, claims)?;
    match broken {
        Some(found) => {
            let least = break_of(alloc, machine, claims, found)?;
            Ok(Proof::Breaks(least))
        }
        None => Ok(Proof::Inductive),
    }
}
