ghost use Rattle.std.specs.Prelude.{◌≡◌, ◌++◌, IfOk, List as Items};
ghost use Rattle.std.specs.List.{AllZip};
ghost use Rattle.claim_syntax.specs.declared.claim.Claim.{Claim as Written};
ghost use Rattle.rsml_meaning.specs.Certified.{Certified};
ghost use Rattle.rsml_ground.specs.Grounded.{IsShort};
ghost use Rattle.ground_claims.specs.Checked.{AreChecked};
ghost use Rattle.ground_claims.specs.StandsFor.{ClaimIs};
ghost use Rattle.invariants.specs.Proof.{IsProof};
ghost use Rattle.answering.specs.Outcomes.{answer_of, bytes_of};
ghost use Rattle.judging.specs.Texts.{IsTextOf};
ghost use Rattle.proving.specs.Outputs.{ClaimsOutput, ProveOutput};
ghost use Rattle.proving.specs.Steps.{IsUnfit};

use crate::keeping::{KeptClaims, kept_claims};
use crate::proof_text::{proof_text, status_of};
use analysis::{Analysed, Report, analysis, chains_of};
use answering::{Outcome, Status};
use claim_syntax::Claim;
use elaborate::{Machine, elaborate};
use ground_claims::{GroundClaim, ground_claims};
use instance_texts::Texts;
use invariants::{Proof, inductive};
use rsml_base::put;
use rsml_meaning::last_lines_tell_the_verdict;
use rsml_syntax::{Checked, NoMemory};
use std::alloc::Global;

/// Bytes behind a line.
pub(crate) fn behind(alloc: Global, line: &[u8], bytes: &[u8]) -> Result<Vec<u8>, NoMemory>
    ensures { IfOk result (λ v. v.items ≡ line.now ++ bytes.now) }
{
    let mut text = Vec::from_slice(alloc, line)?;
    put(&mut text, bytes)?;
    Ok(text)
}

/// What is proved of claims, by the machine of their specification.
pub(crate) fn proof_of(
    alloc: Global,
    checked: &Checked,
    machine: &Machine<'_>,
    claims: &[GroundClaim],
) -> Result<Proof, NoMemory>
    requires machine { machine.now.base.spec ≡ checked.now }
    requires certified { Certified checked.now }
    requires claims { (cs : Items Written) × AllZip (ClaimIs checked.now) cs claims.now }
    ensures { IfOk result (λ p. (cs : Items Written) → AllZip (ClaimIs checked.now) cs claims.now → IsProof checked.now cs p) }
{
    let chains = chains_of(alloc, checked, machine)?;
    inductive(alloc, machine, &chains, claims)
}

/// What `prove` comes to on claims of a certified specification.
fn certified_claims(alloc: Global, checked: &Checked, claims: &[Claim]) -> Result<Outcome, NoMemory>
    requires short { IsShort checked.now }
    requires certified { Certified checked.now }
    requires claims { AreChecked checked.now claims.now }
    ensures { IfOk result (λ o. ClaimsOutput checked.now claims.now (answer_of o) (bytes_of o)) }
{
    let _ = checked.spec();
    let machine = elaborate(alloc, checked)?;
    let texts = Texts::build(alloc, checked)?;
    let ground = ground_claims(alloc, checked, machine.names(), claims)?;
    let proof = proof_of(alloc, checked, &machine, ground.as_slice())?;
    let text = proof_text(alloc, &machine, &texts, claims, &proof)?;
    Ok(Outcome::Text {
        status: status_of(&proof),
        text,
    })
}

/// What `prove` comes to on claims that are kept.
fn judged_claims(alloc: Global, checked: &Checked, claims: &[Claim]) -> Result<Outcome, NoMemory>
    requires short { IsShort checked.now }
    requires claims { AreChecked checked.now claims.now }
    ensures { IfOk result (λ o. ClaimsOutput checked.now claims.now (answer_of o) (bytes_of o)) }
{
    last_lines_tell_the_verdict();
    let _ = checked.spec();
    let Analysed { report, .. } = analysis(alloc, checked)?;
    let Report { text, certified } = report;
    if certified {
        certified_claims(alloc, checked, claims)
    } else {
        let text = behind(alloc, b"file 1\n", text.as_slice())?;
        Ok(Outcome::Text {
            status: Status::Refused,
            text,
        })
    }
}

/// The line that tells why claims cannot be looked at.
fn unfit(alloc: Global, status: Status, line: &[u8]) -> Result<Outcome, NoMemory>
    ensures { IfOk result (IsUnfit status line.now) }
{
    let text = behind(alloc, b"file 2\n", line)?;
    Ok(Outcome::Text { status, text })
}

/// What `prove` comes to on a specification, with its text, and a text of claims.
pub fn prove(
    alloc: Global,
    text: &[u8],
    checked: &Checked,
    claims: &[u8],
) -> Result<Outcome, NoMemory>
    requires { IsTextOf text.now checked.now }
    ensures { IfOk result (λ o. ProveOutput checked.now claims.now (answer_of o) (bytes_of o)) }
{
    let _ = checked.spec();
    match kept_claims(alloc, text, claims)? {
        KeptClaims::Unfit { status, line } => unfit(alloc, status, line.as_slice()),
        KeptClaims::Kept(claims) => judged_claims(alloc, checked, claims.as_slice()),
    }
}
