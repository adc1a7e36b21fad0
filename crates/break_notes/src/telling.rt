//! What is told of what is proved.

use crate::drawing::{is_false, tell_rows};
use crate::moves::{is_told, left_by, tell_changed, tell_more, tell_taken};
use crate::noting::Subject;
use claim_syntax::Claim;
use ground_claims::GroundClaim;
use invariants::{Break, Proof};
use rsml_base::NoMemory;
use rsml_names::Globals;
use source_notes::Notes;
use text_writer::Writer;
use written_members::{Scene, Source, phrases};

/// Claims as they are written, and over numbers of states.
#[derive(Clone, Copy)]
pub struct Claims<'c> {
    pub written: &'c [Claim],
    pub ground: &'c [GroundClaim],
}

/// Tells the claims that are false where components have these children, each with its table.
fn tell_false(
    notes: &mut Notes<'_>,
    subject: Subject<'_, '_>,
    claims: Claims<'_>,
    choices: &[u8],
    words: &[u8],
) -> Result<(), NoMemory> {
    let tree = subject.machine.tree();
    if !tree.fits(choices) {
        return Ok(());
    }
    let alloc = notes.alloc();
    let source = Source::new(alloc, subject.claims_file, subject.claims_text);
    let mut count: usize = 0;
    for (claim, ground) in claims.written.iter().zip(claims.ground.iter()) {
        let rows = ground.rows.as_slice();
        if is_false(tree, choices, rows) && is_told(&mut count) {
            let at = claim.name.at() as usize;
            let mut line = notes.line("");
            source.put_place(&mut line, at);
            line.put(claim.name.bytes());
            line.put(words);
            notes.keep(line);
            let phrases = phrases(alloc, subject.claims_text, at)?;
            tell_rows(notes, tree, choices, rows, phrases.as_slice());
        }
    }
    tell_more(notes, count);
    Ok(())
}

/// Tells the transitions that are taken at a break, and what changes by them.
fn tell_moves(
    notes: &mut Notes<'_>,
    subject: Subject<'_, '_>,
    least: &Break,
    after: &[u8],
) -> Result<(), NoMemory> {
    let decls = subject.checked.spec().decls.as_slice();
    let globals = Globals::new(notes.alloc(), decls)?;
    let source = Source::new(notes.alloc(), subject.file, subject.text);
    let scene = Scene {
        machine: subject.machine,
        texts: subject.texts,
        globals: &globals,
        decls,
        source: &source,
    };
    tell_taken(notes, &scene, least.taken.as_slice());
    let before = least.world.choices.as_slice();
    tell_changed(notes, subject.machine.tree(), before, after);
    Ok(())
}

/// Tells a break.
fn tell_break(
    notes: &mut Notes<'_>,
    subject: Subject<'_, '_>,
    claims: Claims<'_>,
    least: &Break,
) -> Result<(), NoMemory> {
    let after = left_by(notes.alloc(), subject.machine, least)?;
    let words = b" is true before this micro-step and false after it";
    tell_false(notes, subject, claims, after.as_slice(), words)?;
    tell_moves(notes, subject, least, after.as_slice())?;
    notes.say("no run need reach the world before: it is one in which all claims are true");
    notes.say("if no run reaches it, say why in a further claim, and prove both");
    notes.say(
        "else the specification lets the claim fail, and simulate shows it with a fitting event file",
    );
    Ok(())
}

/// Tells what is proved of claims.
pub fn tell_proof(
    notes: &mut Notes<'_>,
    subject: Subject<'_, '_>,
    claims: Claims<'_>,
    proof: &Proof,
) -> Result<(), NoMemory> {
    match proof {
        Proof::Inductive => {
            notes.say(
                "each claim is true in the first world and after every micro-step of every run",
            );
            Ok(())
        }
        Proof::Initial { .. } => {
            let first = subject.machine.initial(notes.alloc())?;
            let choices = first.choices.as_slice();
            tell_false(
                notes,
                subject,
                claims,
                choices,
                b" is false in the first world",
            )?;
            notes.say("each component is at its default there: change the claim or a default");
            Ok(())
        }
        Proof::Breaks(least) => tell_break(notes, subject, claims, least),
    }
}
