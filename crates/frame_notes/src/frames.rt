//! Comment lines on two specifications with different frames.
ghost use Rattle.std.specs.Prelude.{IfOk, OnOk};
ghost use Rattle.source_notes.specs.Comments.{AreComments};

use crate::declarations::{Declared, compare_declarations};
use crate::found::{Difference, Found, MOST};
use crate::side::Side;
use crate::states::compare_bodies;
use rsml_base::{NoMemory, put};
use rsml_syntax::{Spec, Text};
use source_notes::{Notes, Piece, spot_of};
use std::alloc::Global;
use text_writer::Writer;
use written_members::Source;

/// What differs between the frames of two specifications.
fn differences_of<'t>(alloc: Global, one: &'t Spec, two: &'t Spec) -> Result<Found<'t>, NoMemory> {
    let mut found = Found::new(alloc);
    let first = Declared::new(alloc, one)?;
    let second = Declared::new(alloc, two)?;
    compare_declarations(&mut found, &first, &second);
    let parts = [(one.top != two.top, "has another name")];
    found.compare("top state", &one.top, &two.top, &parts);
    compare_bodies(&mut found, &two.body, &one.body);
    if found.is_refused {
        return Err(NoMemory);
    }
    Ok(found)
}

/// Puts what is said of a name in one of the texts, and its source line.
#[tactic(auto, using(crate::proofs::CommentLemmas::joined))]
fn put_name(
    alloc: Global,
    bytes: &mut Vec<u8>,
    side: Side<'_>,
    name: &Text,
    words: [&str; 2],
) -> Result<(), NoMemory>
    requires { AreComments bytes.old.items }
    ensures { OnOk result (AreComments bytes.new.items) }
{
    let [sort, words] = words;
    let spot = spot_of(name);
    let source = Source::new(alloc, side.file, side.text);
    let mut notes = Notes::new(alloc, side.file, side.text);
    let mut line = notes.line("");
    source.put_place(&mut line, spot.at);
    line.put(b"the ");
    line.put(sort.as_bytes());
    line.put(b" ");
    line.put(name.bytes());
    line.put(b" ");
    line.put(words.as_bytes());
    notes.keep_at(line, spot);
    let lines = notes.bytes()?;
    put(bytes, lines.as_slice())
}

/// Puts a difference: where it is in the second text, and then in the first.
fn put_difference(
    alloc: Global,
    bytes: &mut Vec<u8>,
    one: Side<'_>,
    two: Side<'_>,
    difference: Difference<'_>,
) -> Result<(), NoMemory>
    requires { AreComments bytes.old.items }
    ensures { OnOk result (AreComments bytes.new.items) }
{
    let mut words = difference.words;
    if let Some(name) = difference.two {
        put_name(alloc, bytes, two, name, [difference.sort, words])?;
        words = "in the first file";
    }
    match difference.one {
        Some(name) => put_name(alloc, bytes, one, name, [difference.sort, words]),
        None => Ok(()),
    }
}

/// Puts how many differences are left, of so many. Where there are none, the same is declared in another order.
#[tactic(auto, using(crate::proofs::CommentLemmas::joined))]
fn put_rest(alloc: Global, bytes: &mut Vec<u8>, count: usize) -> Result<(), NoMemory>
    requires { AreComments bytes.old.items }
    ensures { OnOk result (AreComments bytes.new.items) }
{
    let mut notes = Notes::new(alloc, b"", b"");
    if count == 0 {
        notes.say("both files declare the same, in another order");
    }
    if count > MOST {
        notes.say_one("and {} more", Piece::Count(count.saturating_sub(MOST)));
    }
    let lines = notes.bytes()?;
    put(bytes, lines.as_slice())
}

/// Comment lines on two specifications with different frames: each difference, at most twenty. The only error is out of memory.
#[tactic(auto, using(crate::proofs::CommentLemmas::none))]
pub fn frame_notes(alloc: Global, one: Side<'_>, two: Side<'_>) -> Result<Vec<u8>, NoMemory>
    ensures { IfOk result (λ v. AreComments v.items) }
{
    let found = differences_of(alloc, one.checked.spec(), two.checked.spec())?;
    let mut bytes = Vec::new(alloc);
    for difference in found.first.as_slice() {
        put_difference(alloc, &mut bytes, one, two, *difference)?;
    }
    put_rest(alloc, &mut bytes, found.count)?;
    Ok(bytes)
}
