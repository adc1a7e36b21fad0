ghost use Rattle.std.specs.Prelude.{IfOk};
ghost use Rattle.rsml_meaning.specs.Certified.{Certified};
ghost use Rattle.rsml_ground.specs.Grounded.{IsShort};
ghost use Rattle.ground_claims.specs.Checked.{AreChecked};
ghost use Rattle.explaining.specs.Outputs.{WithNotes};
ghost use Rattle.answering.specs.Outcomes.{answer_of, bytes_of};
ghost use Rattle.judging.specs.Texts.{IsTextOf};
ghost use Rattle.proving.specs.Outputs.{ClaimsOutput, ProveOutput};
ghost use Rattle.proving.specs.Steps.{IsExplainedUnfit};

use crate::keeping::{KeptClaims, kept_claims};
use crate::proof_text::{proof_text, status_of};
use crate::proving::{behind, proof_of};
use analysis::{Analysed, Report, analysis};
use answering::{Outcome, Status};
use break_notes::{Subject, break_notes, claims_fault_notes};
use checked_notes::checked_notes;
use claim_syntax::Claim;
use elaborate::elaborate;
use ground_claims::ground_claims;
use instance_texts::Texts;
use rsml_base::put;
use rsml_meaning::last_lines_tell_the_verdict;
use rsml_syntax::{Checked, NoMemory};
use std::alloc::Global;

/// The texts of a specification and of claims, and the names of their files.
#[derive(Clone, Copy)]
struct Sources<'t> {
    file: &'t [u8],
    text: &'t [u8],
    claims_file: &'t [u8],
    claims: &'t [u8],
}

/// What `explain prove` comes to on claims of a certified specification.
fn certified_claims(
    alloc: Global,
    sources: Sources<'_>,
    checked: &Checked,
    claims: &[Claim],
) -> Result<Outcome, NoMemory>
    requires short { IsShort checked.now }
    requires certified { Certified checked.now }
    requires claims { AreChecked checked.now claims.now }
    ensures { IfOk result (λ o. WithNotes (ClaimsOutput checked.now claims.now (answer_of o)) (bytes_of o)) }
{
    let _ = checked.spec();
    let machine = elaborate(alloc, checked)?;
    let texts = Texts::build(alloc, checked)?;
    let ground = ground_claims(alloc, checked, machine.names(), claims)?;
    let proof = proof_of(alloc, checked, &machine, ground.as_slice())?;
    let mut text = proof_text(alloc, &machine, &texts, claims, &proof)?;
    let subject = Subject {
        file: sources.file,
        text: sources.text,
        claims_file: sources.claims_file,
        claims_text: sources.claims,
        checked,
        machine: &machine,
        texts: &texts,
    };
    let notes = break_notes(alloc, subject, claims, ground.as_slice(), &proof)?;
    put(&mut text, notes.as_slice())?;
    Ok(Outcome::Text {
        status: status_of(&proof),
        text,
    })
}

/// What `explain prove` comes to on claims that are kept.
fn judged_claims(
    alloc: Global,
    sources: Sources<'_>,
    checked: &Checked,
    claims: &[Claim],
) -> Result<Outcome, NoMemory>
    requires short { IsShort checked.now }
    requires claims { AreChecked checked.now claims.now }
    ensures { IfOk result (λ o. WithNotes (ClaimsOutput checked.now claims.now (answer_of o)) (bytes_of o)) }
{
    last_lines_tell_the_verdict();
    let _ = checked.spec();
    let Analysed { report, verdicts } = analysis(alloc, checked)?;
    let Report { text, certified } = report;
    if certified {
        certified_claims(alloc, sources, checked, claims)
    } else {
        let found = Some(verdicts.as_slice());
        let notes = checked_notes(alloc, sources.file, sources.text, checked, found)?;
        let mut text = behind(alloc, b"file 1\n", text.as_slice())?;
        put(&mut text, notes.as_slice())?;
        Ok(Outcome::Text {
            status: Status::Refused,
            text,
        })
    }
}

/// The line that tells why claims cannot be looked at, and comment lines behind it.
fn unfit(
    alloc: Global,
    sources: Sources<'_>,
    status: Status,
    line: &[u8],
) -> Result<Outcome, NoMemory>
    ensures { IfOk result (IsExplainedUnfit status line.now) }
{
    let notes = claims_fault_notes(
        alloc,
        sources.file,
        sources.text,
        sources.claims_file,
        sources.claims,
    )?;
    let mut text = behind(alloc, b"file 2\n", line)?;
    put(&mut text, notes.as_slice())?;
    Ok(Outcome::Text { status, text })
}

/// What `explain prove` comes to on a specification, with its text and the name of its file, and a text of claims in a file with this name:
/// what `prove` does, and comment lines behind it.
pub fn explain_prove(
    alloc: Global,
    file: &[u8],
    text: &[u8],
    checked: &Checked,
    claims_file: &[u8],
    claims: &[u8],
) -> Result<Outcome, NoMemory>
    requires { IsTextOf text.now checked.now }
    ensures { IfOk result (λ o. WithNotes (ProveOutput checked.now claims.now (answer_of o)) (bytes_of o)) }
{
    let _ = checked.spec();
    let sources = Sources {
        file,
        text,
        claims_file,
        claims,
    };
    match kept_claims(alloc, text, claims)? {
        KeptClaims::Unfit { status, line } => unfit(alloc, sources, status, line.as_slice()),
        KeptClaims::Kept(claims) => judged_claims(alloc, sources, checked, claims.as_slice()),
    }
}
