ghost use Rattle.std.specs.Prelude.{◌≡◌, All, IfOk};
ghost use Rattle.std.specs.List.{AllZip};
ghost use Rattle.rsml_ground.specs.Grounded.{IsShort};
ghost use Rattle.ground_claims.specs.Checked.{AreChecked};
ghost use Rattle.ground_claims.specs.StandsFor.{ClaimIs};
ghost use Rattle.ground_claims.specs.Scoped.{ClaimIsScoped};

use crate::claim::GroundClaim;
use crate::tables::ground_rows;
use claim_syntax::Claim;
use phrase_builder::Lookup;
use rsml_syntax::{Checked, NoMemory};
use state_arrays::Names;
use std::alloc::Global;

/// A claim over numbers of states.
fn ground_claim(
    alloc: Global,
    lookup: &Lookup<'_, '_>,
    claim: &Claim,
) -> Result<GroundClaim, NoMemory>
    requires { ClaimIsScoped lookup.now claim.now }
    ensures { IfOk result (λ x. ClaimIs lookup.now claim.now x) }
{
    let rows = ground_rows(alloc, lookup, claim.rows.as_slice())?;
    Ok(GroundClaim { rows })
}

/// All claims over numbers of states.
fn all_ground(
    alloc: Global,
    lookup: &Lookup<'_, '_>,
    claims: &[Claim],
) -> Result<Vec<GroundClaim>, NoMemory>
    requires { All (ClaimIsScoped lookup.now) claims.now }
    ensures { IfOk result (λ ground. AllZip (ClaimIs lookup.now) claims.now ground.items) }
{
    let mut ground = Vec::new(alloc);
    for claim in claims {
        let claim = ground_claim(alloc, lookup, claim)?;
        ground.push(claim)?;
    }
    Ok(ground)
}

/// Checked claims over the numbers of the states of a specification.
pub fn ground_claims<'a>(
    alloc: Global,
    checked: &'a Checked,
    names: &Names<'a>,
    claims: &[Claim],
) -> Result<Vec<GroundClaim>, NoMemory>
    requires same { names.now ≡ checked.now }
    requires short { IsShort checked.now }
    requires joined { AreChecked checked.now claims.now }
    ensures { IfOk result (λ ground. AllZip (ClaimIs checked.now) claims.now ground.items) }
{
    let lookup = Lookup::new(alloc, checked, names)?;
    all_ground(alloc, &lookup, claims)
}
