//! Claims after transitions.
ghost use Rattle.std.specs.Prelude.{◌≡◌, [], All, IfOk};
ghost use Rattle.guard_encode.specs.Encoding.{Keeps};
ghost use Rattle.ground_claims.specs.StandsFor.{AreStates, HasStates};
ghost use Rattle.invariants.specs.Moves.{LeaveWorlds};
ghost use Rattle.invariants.specs.Told.{TellClaims, TellRows, TellsOf, active_after, true_after};

use crate::states::phrase_after;
use crate::tables::table_of;
use bdd_core::Ref;
use elaborate::Machine;
use ground_claims::{ClaimRow, GroundClaim};
use guard_encode::Encoder;
use rsml_base::NoMemory;
use std::alloc::Global;

/// Where what each row of a claim asks is true after transitions.
fn rows_after(
    alloc: Global,
    encoder: &mut Encoder<'_, '_>,
    machine: &Machine<'_>,
    moves: &[u32],
    rows: &[ClaimRow],
) -> Result<Vec<Ref>, NoMemory>
    requires machine { encoder.old.machine ≡ machine.now }
    requires moves { LeaveWorlds machine.now moves.now }
    requires there { All (λ row. AreStates machine.now.base.spec row.phrase) rows.now }
    ensures keeps { Keeps encoder.old encoder.new }
    ensures answer { IfOk result (λ found. TellRows machine.now.base.spec encoder.new (active_after machine.now moves.now) rows.now found.items) }
{
    let mut found = Vec::new(alloc);
    for row in rows {
        let phrase = phrase_after(alloc, encoder, machine, moves, &row.phrase)?;
        found.push(phrase)?;
    }
    Ok(found)
}

/// Where a claim is true after transitions.
pub fn claim_after(
    alloc: Global,
    encoder: &mut Encoder<'_, '_>,
    machine: &Machine<'_>,
    moves: &[u32],
    claim: &GroundClaim,
) -> Result<Ref, NoMemory>
    requires machine { encoder.old.machine ≡ machine.now }
    requires moves { LeaveWorlds machine.now moves.now }
    requires there { HasStates machine.now.base.spec claim.now }
    ensures keeps { Keeps encoder.old encoder.new }
    ensures answer { IfOk result (TellsOf machine.now.base.spec encoder.new (true_after machine.now moves.now claim.now)) }
{
    let rows = claim.rows.as_slice();
    let phrases = rows_after(alloc, encoder, machine, moves, rows)?;
    table_of(encoder, rows, phrases.as_slice())
}

/// Where each claim is true, before any transition.
pub fn claims_before(
    alloc: Global,
    encoder: &mut Encoder<'_, '_>,
    machine: &Machine<'_>,
    claims: &[GroundClaim],
) -> Result<Vec<Ref>, NoMemory>
    requires machine { encoder.old.machine ≡ machine.now }
    requires there { All (HasStates machine.now.base.spec) claims.now }
    ensures keeps { Keeps encoder.old encoder.new }
    ensures answer { IfOk result (λ found. TellClaims machine.now encoder.new [] claims.now found.items) }
{
    let mut found = Vec::new(alloc);
    for claim in claims {
        let before = claim_after(alloc, encoder, machine, &[], claim)?;
        found.push(before)?;
    }
    Ok(found)
}
