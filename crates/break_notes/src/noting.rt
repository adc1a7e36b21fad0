ghost use Rattle.std.specs.Prelude.{IfOk};
ghost use Rattle.source_notes.specs.Comments.{AreComments};

use crate::telling::{Claims, tell_proof};
use claim_syntax::Claim;
use elaborate::Machine;
use ground_claims::GroundClaim;
use instance_texts::Texts;
use invariants::Proof;
use rsml_base::NoMemory;
use rsml_syntax::Checked;
use source_notes::Notes;
use std::alloc::Global;

/// A specification and claims, the texts that they were read from, the names of the files of these, and the machine of the specification.
#[derive(Clone, Copy)]
pub struct Subject<'s, 'a> {
    pub file: &'s [u8],
    pub text: &'s [u8],
    pub claims_file: &'s [u8],
    pub claims_text: &'s [u8],
    pub checked: &'a Checked,
    pub machine: &'s Machine<'a>,
    pub texts: &'s Texts<'a>,
}

/// Comment lines, or one that says that there is too little memory for them.
pub fn or_refused(alloc: Global, told: Result<Vec<u8>, NoMemory>) -> Result<Vec<u8>, NoMemory>
    requires { IfOk told (λ v. AreComments v.items) }
    ensures { IfOk result (λ v. AreComments v.items) }
{
    match told {
        Ok(notes) => Ok(notes),
        Err(NoMemory) => {
            let mut notes = Notes::new(alloc, b"", b"");
            notes.say("out of memory: nothing is explained");
            notes.bytes()
        }
    }
}

/// Comment lines on what is proved of claims.
fn notes_on(
    alloc: Global,
    subject: Subject<'_, '_>,
    claims: Claims<'_>,
    proof: &Proof,
) -> Result<Vec<u8>, NoMemory>
    ensures { IfOk result (λ v. AreComments v.items) }
{
    let mut notes = Notes::new(alloc, subject.claims_file, subject.claims_text);
    tell_proof(&mut notes, subject, claims, proof)?;
    notes.bytes()
}

/// Comment lines on what is proved of claims, or a line that says that there is too little memory for them. The only error is out of
/// memory.
pub fn break_notes(
    alloc: Global,
    subject: Subject<'_, '_>,
    claims: &[Claim],
    ground: &[GroundClaim],
    proof: &Proof,
) -> Result<Vec<u8>, NoMemory>
    ensures { IfOk result (λ v. AreComments v.items) }
{
    let claims = Claims {
        written: claims,
        ground,
    };
    or_refused(alloc, notes_on(alloc, subject, claims, proof))
}
