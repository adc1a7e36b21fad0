//! What is told of a transition or case of a send.
use crate::columns::Columns;
use crate::parts::Heading;
use crate::written::{By, Written};
use ground_groups::Member;
use guard_encode::Encoder;
use instance_texts::{put_case_label, put_path};
use rsml_base::NoMemory;
use rsml_names::name_of;
use rsml_syntax::Decl;
use source_notes::Notes;
use table_notes::{Asked, cell_place, tell_column, tell_example};
use text_writer::{Draft, Writer, put_number};
use written_members::{Scene, put_member, written_at};

/// How many elements or members of a bus are named at most.
const MOST_NAMED: usize = 8;

/// Puts the send of the case of a number.
fn put_send(line: &mut Draft, scene: &Scene<'_, '_>, number: u32) {
    if let Some(case) = scene.machine.all_send_cases().get(number as usize) {
        scene.texts.put_send(line, case.send());
    }
}

/// Puts how many of so many there are.
pub fn put_of(line: &mut Draft, count: usize, all: usize) {
    put_number(line, count as u64);
    line.put(b" of ");
    put_number(line, all as u64);
}

/// Puts how a transition or a case of a send is called.
fn put_called(line: &mut Draft, scene: &Scene<'_, '_>, member: Member) {
    line.put(b": ");
    if let Member::SendCase(number) = member {
        line.put(b"send ");
        put_send(line, scene, number);
        line.put(b" ");
    }
    put_member(line, scene.machine, member);
}

/// Puts an offset, words, and that something reacted.
fn put_taken(line: &mut Draft, scene: &Scene<'_, '_>, at: usize, words: &[u8], member: Member) {
    scene.source.put_place(line, at);
    line.put(words);
    line.put(match member {
        Member::Transition(_) => b"taken",
        _ => b"chosen",
    });
}

/// Tells the least world in which one of the columns is true, in the first of the instances in which there is one, or that there is none.
fn tell_world(
    notes: &mut Notes<'_>,
    scene: &Scene<'_, '_>,
    encoder: &mut Encoder<'_, '_>,
    instances: &[Columns<'_>],
) -> Result<(), NoMemory> {
    for columns in instances {
        if let Some((column, world)) = columns.world(notes.alloc(), encoder)? {
            let Asked { rows, source } = columns.asked;
            return tell_example(notes, scene, rows, column, source, &world);
        }
    }
    notes.say("in no world is it true: no event file covers it");
    Ok(())
}

/// Tells a line, below it the columns of the first of these instances, behind whose offset their table is the first, and a world in which
/// one of them is true; where that would take too long, that it is not told.
fn tell_untrue(
    notes: &mut Notes<'_>,
    scene: &Scene<'_, '_>,
    encoder: &mut Encoder<'_, '_>,
    line: Draft,
    table: usize,
    instances: &[Columns<'_>],
) -> Result<(), NoMemory> {
    notes.keep(line);
    if let Some(first) = instances.first() {
        for column in first.first..first.end {
            if column > first.first {
                notes.say("or");
            }
            let text = notes.text();
            tell_column(notes, text, first.asked.rows, table, column)?;
        }
    }
    let told = tell_world(notes, scene, encoder, instances);
    if told.is_err() && encoder.is_spent() {
        notes.say("whether it is true in some world is not told: it would take too long");
        return Ok(());
    }
    told
}

/// Tells that a column of something that reacted was never true.
pub fn tell_untrue_column(
    notes: &mut Notes<'_>,
    scene: &Scene<'_, '_>,
    encoder: &mut Encoder<'_, '_>,
    written: Written<'_, '_, '_, '_, '_>,
    column: usize,
) -> Result<(), NoMemory> {
    if let Some(member) = written.first()
        && let Some(at) = written_at(scene, member)
    {
        let mut line = notes.line("");
        let place = cell_place(notes.text(), at.table, column);
        put_taken(&mut line, scene, place, b"", member);
        line.put(b", but ");
        put_never_true(&mut line, column);
        put_called(&mut line, scene, member);
        let instances = written.columns(notes.alloc(), column)?;
        tell_untrue(notes, scene, encoder, line, at.table, instances.as_slice())?;
    }
    Ok(())
}

/// Puts that a column is never true.
fn put_never_true(line: &mut Draft, column: usize) {
    line.put(b"column ");
    put_number(line, column.saturating_add(1) as u64);
    line.put(b" is never true");
}

/// Tells that a column of a macro, or a case of a function, was never true where it was asked for, in none of these instances.
pub fn tell_untrue_part(
    notes: &mut Notes<'_>,
    scene: &Scene<'_, '_>,
    encoder: &mut Encoder<'_, '_>,
    heading: Heading<'_, '_>,
    instances: &[Columns<'_>],
) -> Result<(), NoMemory> {
    let Some(at) = heading.written_at(scene) else {
        return Ok(());
    };
    let mut line = notes.line("");
    scene.source.put_place(&mut line, at.at);
    line.put(b"asked for, but ");
    let (name, place) = (name_of(heading.decl), heading.part.place);
    if let Decl::Macro { .. } = heading.decl {
        put_never_true(&mut line, place as usize);
        line.put(b": macro ");
        line.put(name.bytes());
    } else {
        line.put(b"never true: function ");
        line.put(name.bytes());
        line.put(b" ");
        put_case_label(&mut line, place.saturating_add(1));
    }
    tell_untrue(notes, scene, encoder, line, at.table, instances)
}

/// Puts the name of the element, or of the member of a bus, that an instance is of.
fn put_part(line: &mut Draft, scene: &Scene<'_, '_>, member: Member, by: By) {
    match member {
        Member::SendCase(number) => put_send(line, scene, number),
        Member::Transition(number) => {
            if let Some(transition) = scene.machine.all_transitions().get(number as usize)
                && let Some(path) = scene.machine.tree().states().path(transition.source())
                && let Some((last, outer)) = path.split_last()
            {
                match by {
                    By::Element => put_path(line, outer),
                    By::Source => line.put(last.name.bytes()),
                }
            }
        }
        Member::FunctionCase { .. } => {}
    }
}

/// Tells which elements, or which members of a bus, were never tried, if some were not.
fn tell_parts(
    notes: &mut Notes<'_>,
    scene: &Scene<'_, '_>,
    written: Written<'_, '_, '_, '_, '_>,
    by: By,
) {
    let mut line = notes.line("  never ");
    let mut count: usize = 0;
    for place in 0..written.instances.len() {
        if let Some(member) = written.member(place)
            && written.is_first_untried(place, by)
        {
            if count < MOST_NAMED {
                line.put(match (count, by) {
                    (0, By::Element) => b"in ",
                    (0, By::Source) => b"from ",
                    _ => b", ",
                });
                put_part(&mut line, scene, member, by);
            }
            count = count.saturating_add(1);
        }
    }
    if count > MOST_NAMED {
        line.put(b" and ");
        put_number(&mut line, count.saturating_sub(MOST_NAMED) as u64);
        line.put(b" more");
    }
    if count > 0 {
        notes.keep(line);
    }
}

/// Tells that something never reacted, or that only so many of its instances did.
pub fn tell_untried(
    notes: &mut Notes<'_>,
    scene: &Scene<'_, '_>,
    written: Written<'_, '_, '_, '_, '_>,
    tried: usize,
) {
    if let Some(member) = written.first()
        && let Some(at) = written_at(scene, member)
    {
        let mut line = notes.line("");
        let words: &[u8] = if tried == 0 { b"never " } else { b"" };
        put_taken(&mut line, scene, at.at, words, member);
        if tried > 0 {
            line.put(b" in ");
            put_of(&mut line, tried, written.instances.len());
            line.put(b" instances");
        }
        put_called(&mut line, scene, member);
        notes.keep(line);
        if tried > 0 {
            tell_parts(notes, scene, written, By::Source);
            tell_parts(notes, scene, written, By::Element);
        }
    }
}
