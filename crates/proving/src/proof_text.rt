//! The text of what is proved of claims.
ghost use Rattle.std.specs.Prelude.{◌≡◌, ◌<◌, ◌++◌, IfOk, flat_map};
ghost use Rattle.rsml_meaning.specs.Texts.{text_line};
ghost use Rattle.text_writer.specs.Writes.{Writes};
ghost use Rattle.proving.specs.Fitting.{FitsProof};
ghost use Rattle.proving.specs.Numbers as spec;
ghost use Rattle.proving.specs.ProveText.{claim_line, heading};

use crate::moments::put_break;
use answering::Status;
use claim_syntax::Claim;
use elaborate::Machine;
use instance_texts::Texts;
use invariants::Proof;
use rsml_syntax::NoMemory;
use std::alloc::Global;
use text_writer::{Draft, Writer, put_line_end};

// Writes a line of words and a name.
fn put_named<W: Writer>(writer: &mut W, words: &[u8], name: &[u8])
    ensures { Writes (W.state writer.old) (W.text writer.old) (text_line (words.now ++ name.now))
        (W.state writer.new) (W.text writer.new) }
{
    writer.put(words);
    writer.put(name);
    put_line_end(writer);
}

// Writes a line of each claim.
fn put_claims<W: Writer>(writer: &mut W, claims: &[Claim])
    ensures { Writes (W.state writer.old) (W.text writer.old) (flat_map claim_line claims.now)
        (W.state writer.new) (W.text writer.new) }
{
    for claim in claims {
        put_named(writer, b"claim ", claim.name.bytes());
    }
}

// Writes what is proved.
fn put_proof<W: Writer>(
    writer: &mut W,
    machine: &Machine<'_>,
    texts: &Texts<'_>,
    claims: &[Claim],
    proof: &Proof,
)
    requires texts { texts.now ≡ machine.now.base.spec }
    requires proof { FitsProof machine.now.base.spec claims.now proof.now }
    ensures { Writes (W.state writer.old) (W.text writer.old) (spec.proof_text machine.now.base.spec claims.now proof.now)
        (W.state writer.new) (W.text writer.new) }
{
    match proof {
        Proof::Inductive => writer.put(b"proved\n"),
        Proof::Initial { claim } => {
            put_named(writer, b"initial ", claims[*claim].name.bytes());
            writer.put(b"refused 1\n");
        }
        Proof::Breaks(least) => {
            put_named(writer, b"breaks ", claims[least.claim].name.bytes());
            put_break(writer, machine, texts, least);
            writer.put(b"refused 1\n");
        }
    }
}

/// The text of what is proved of claims. The only error is out of memory.
pub fn proof_text(
    alloc: Global,
    machine: &Machine<'_>,
    texts: &Texts<'_>,
    claims: &[Claim],
    proof: &Proof,
) -> Result<Vec<u8>, NoMemory>
    requires texts { texts.now ≡ machine.now.base.spec }
    requires proof { FitsProof machine.now.base.spec claims.now proof.now }
    ensures { IfOk result (λ t. t.items ≡ heading machine.now.base.spec claims.now
        ++ spec.proof_text machine.now.base.spec claims.now proof.now) }
{
    let mut draft = Draft::new(alloc);
    put_named(&mut draft, b"prove ", machine.name());
    put_claims(&mut draft, claims);
    put_proof(&mut draft, machine, texts, claims, proof);
    draft.finish()
}

/// How `prove` ends, by what is proved.
pub fn status_of(proof: &Proof) -> Status
    ensures { result ≡ spec.status_of proof.now }
{
    match proof {
        Proof::Inductive => Status::Done,
        Proof::Initial { .. } | Proof::Breaks(_) => Status::Refused,
    }
}
