//! External events one after another.
ghost use Rattle.std.specs.Prelude.{◌≡◌, ℕ, All, IfOk, MatchOption};
ghost use Rattle.rsml_meaning.specs.Certified.{Certified};
ghost use Rattle.ground_claims.specs.StandsFor.{HasStates};
ghost use Rattle.invariants.specs.Safe.{IsFound, IsSafeStart};

use crate::claimed::claims_before;
use crate::found::Found;
use crate::rounds::first_after;
use elaborate::Machine;
use event_chains::Chains;
use ground_claims::GroundClaim;
use guard_encode::Encoder;
use level_order::plan_of;
use rsml_base::NoMemory;
use std::alloc::Global;

/// The first external event after which a micro-step turns the claims false, with the first round, set and world.
pub fn first_found(
    alloc: Global,
    machine: &Machine<'_>,
    chains: &Chains<'_>,
    claims: &[GroundClaim],
) -> Result<Option<Found>, NoMemory>
    requires chains { chains.now ≡ machine.now.base.spec }
    requires certified { Certified machine.now.base.spec }
    requires there { All (HasStates machine.now.base.spec) claims.now }
    ensures { IfOk result (λ found. MatchOption found ((k : ℕ) → IsSafeStart machine.now claims.now k) (IsFound machine.now claims.now)) }
{
    let plan = plan_of(alloc, machine)?;
    let mut encoder = Encoder::with(alloc, machine, plan, 0)?;
    let before = claims_before(alloc, &mut encoder, machine, claims)?;
    let mut known = Vec::new(alloc);
    for start in 0..machine.events() {
        let found = first_after(
            alloc,
            &mut encoder,
            machine,
            chains,
            claims,
            before.as_slice(),
            &mut known,
            start,
        )?;
        match found {
            Some(found) => return Ok(Some(found)),
            None => {}
        }
    }
    Ok(None)
}
