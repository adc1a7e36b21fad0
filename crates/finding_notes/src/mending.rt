//! Rows that would mend a group with two enabled members.

use crate::finding::Finding;
use crate::sharing::{alike_at, alike_count, beside};
use crate::{Added, Change, columns_stay, is_sound_with};
use and_or_tables::{GroundRow, Truths};
use elaborate::Machine;
use finding_texts::Verdict;
use ground_groups::Member;
use guard_encode::Encoder;
use rsml_base::NoMemory;
use rsml_ground::GroundGuard;
use rsml_syntax::Cell;
use source_notes::Notes;
use table_notes::{TruthTable, cell_at, is_true, letter, member_count, rows_of, text_at};
use text_writer::{Draft, Writer};
use written_members::{Scene, guard_of, phrases, written_at};

/// How many rows a table has at most.
const MOST_ROWS: usize = 64;

/// How many other groups are asked at most whether they stay sound with a row.
const MOST_OTHERS: usize = 64;

/// A member that is enabled, and its table.
#[derive(Clone, Copy)]
struct Enabled<'m> {
    member: Member,
    table: TruthTable<'m>,
}

/// The row at a place of one member with the phrase that fails, added to another where its columns hold.
#[derive(Clone, Copy)]
struct Attempt<'m> {
    from: Member,
    place: usize,
    to: Member,
    added: Added<'m>,
}

/// A member that is enabled, if it has a table.
fn enabled_member<'m>(
    machine: &'m Machine<'_>,
    member: Member,
    truths: &'m Truths,
) -> Option<Enabled<'m>> {
    match guard_of(machine, member)? {
        GroundGuard::Always => None,
        GroundGuard::Table(table) => {
            let rows = table.rows.as_slice();
            let table = TruthTable { rows, truths };
            Some(Enabled { member, table })
        }
    }
}

/// Whether a column that holds asks for the phrase of a row.
fn is_asked(row: &GroundRow, table: TruthTable<'_>) -> bool {
    for column in 0..table.width() {
        if cell_at(row, column) != Cell::Dot && table.holds(column) {
            return true;
        }
    }
    false
}

/// The row at a place of one member to be added to another, if a column that holds asks for its phrase.
fn attempt_at<'m>(from: Enabled<'_>, to: Enabled<'m>, place: usize) -> Option<Attempt<'m>> {
    let row = from.table.rows.get(place)?;
    if !is_asked(row, from.table) {
        return None;
    }
    let truth = is_true(from.table.truths, row.phrase);
    Some(Attempt {
        from: from.member,
        place,
        to: to.member,
        added: Added {
            phrase: row.phrase,
            cell: if truth { Cell::F } else { Cell::T },
            table: to.table,
        },
    })
}

/// The phrase of an attempt for a member that is written as the one to which the row is added.
fn phrase_for(machine: &Machine<'_>, attempt: Attempt<'_>, member: Member) -> Option<u32> {
    let beside = beside(machine, member, attempt.from)?;
    let row = rows_of(guard_of(machine, beside)?).get(attempt.place)?;
    Some(row.phrase)
}

/// Whether another group stays sound, where the row is added to a member that stands there.
fn stays(
    notes: &Notes<'_>,
    encoder: &mut Encoder<'_, '_>,
    group: u32,
    member: Member,
    attempt: Attempt<'_>,
) -> Result<bool, NoMemory> {
    let Some(phrase) = phrase_for(encoder.machine(), attempt, member) else {
        return Ok(false);
    };
    let added = Added {
        phrase,
        cell: attempt.added.cell,
        table: attempt.added.table,
    };
    is_sound_with(notes.alloc(), encoder, group, Change { member, added })
}

/// Whether another group stays sound, where the row is added to each of its members that is written as the one.
fn group_stays(
    notes: &Notes<'_>,
    scene: &Scene<'_, '_>,
    encoder: &mut Encoder<'_, '_>,
    group: u32,
    attempt: Attempt<'_>,
) -> Result<bool, NoMemory> {
    for place in 0..member_count(scene.machine, group) {
        if let Some(member) = alike_at(scene, group, place, attempt.to)
            && !stays(notes, encoder, group, member, attempt)?
        {
            return Ok(false);
        }
    }
    Ok(true)
}

/// Whether a group is sound.
fn is_sound(verdicts: &[Verdict], group: u32) -> bool {
    matches!(verdicts.get(group as usize), Some(Verdict::Sound))
}

/// Whether members of too many sound groups are written as this one.
fn are_many(scene: &Scene<'_, '_>, verdicts: &[Verdict], member: Member) -> bool {
    let mut count: usize = 0;
    for group in 0..scene.machine.groups().count() {
        if is_sound(verdicts, group) {
            count = count.saturating_add(alike_count(scene, group, member));
        }
    }
    count > MOST_OTHERS
}

/// Whether all sound groups stay sound, where the row is added. False, where they are too many.
fn all_stay(
    notes: &Notes<'_>,
    scene: &Scene<'_, '_>,
    encoder: &mut Encoder<'_, '_>,
    verdicts: &[Verdict],
    attempt: Attempt<'_>,
) -> Result<bool, NoMemory> {
    if are_many(scene, verdicts, attempt.to) {
        return Ok(false);
    }
    for group in 0..scene.machine.groups().count() {
        if is_sound(verdicts, group) && !group_stays(notes, scene, encoder, group, attempt)? {
            return Ok(false);
        }
    }
    Ok(true)
}

/// Whether a row mends a group, leaves no column without a world, and leaves the other groups sound.
fn is_mend(
    notes: &Notes<'_>,
    scene: &Scene<'_, '_>,
    encoder: &mut Encoder<'_, '_>,
    finding: Finding<'_>,
    attempt: Attempt<'_>,
) -> Result<bool, NoMemory> {
    let change = Change {
        member: attempt.to,
        added: attempt.added,
    };
    Ok(
        is_sound_with(notes.alloc(), encoder, finding.group, change)?
            && columns_stay(notes.alloc(), encoder, finding.group, attempt.added)?
            && all_stay(notes, scene, encoder, finding.verdicts, attempt)?,
    )
}

/// The first row of one member whose phrase, added to the table of the other, mends a group.
fn mend<'m>(
    notes: &Notes<'_>,
    scene: &Scene<'_, '_>,
    encoder: &mut Encoder<'_, '_>,
    finding: Finding<'_>,
    from: Enabled<'_>,
    to: Enabled<'m>,
) -> Result<Option<Attempt<'m>>, NoMemory> {
    if to.table.rows.len() >= MOST_ROWS {
        return Ok(None);
    }
    for place in 0..from.table.rows.len() {
        if let Some(attempt) = attempt_at(from, to, place)
            && is_mend(notes, scene, encoder, finding, attempt)?
        {
            return Ok(Some(attempt));
        }
    }
    Ok(None)
}

/// Puts the cells of an added row.
fn put_cells(line: &mut Draft, added: Added<'_>) {
    for column in 0..added.table.width() {
        line.put(b" ");
        line.put(letter(added.cell_in(column)));
    }
}

/// Puts where a member is written.
fn put_position(line: &mut Draft, scene: &Scene<'_, '_>, member: Member) {
    if let Some(at) = written_at(scene, member) {
        scene.source.put_position(line, at.at);
    }
}

/// Tells that a row with this phrase mends a group.
fn tell_row(
    notes: &mut Notes<'_>,
    scene: &Scene<'_, '_>,
    lead: &str,
    phrase: &[u8],
    attempt: Attempt<'_>,
) {
    let mut line = notes.line("  ");
    line.put(lead.as_bytes());
    line.put(b"the row `");
    line.put(phrase);
    line.put(b" |");
    put_cells(&mut line, attempt.added);
    line.put(b"`, added to the table at ");
    put_position(&mut line, scene, attempt.to);
    line.put(b", would mend this");
    notes.keep(line);
}

/// Tells that a row mends a group, with its phrase as it is written.
fn tell_mend(
    notes: &mut Notes<'_>,
    scene: &Scene<'_, '_>,
    lead: &str,
    attempt: Attempt<'_>,
) -> Result<(), NoMemory> {
    let Some(at) = written_at(scene, attempt.from) else {
        return Ok(());
    };
    let phrases = phrases(notes.alloc(), scene.source.text(), at.table)?;
    let phrase = text_at(phrases.as_slice(), attempt.place);
    tell_row(notes, scene, lead, phrase, attempt);
    Ok(())
}

/// Tells the rows that mend a group: of the one member in the table of the other, and of the other in the table of the one.
fn tell_between(
    notes: &mut Notes<'_>,
    scene: &Scene<'_, '_>,
    encoder: &mut Encoder<'_, '_>,
    finding: Finding<'_>,
    one: Enabled<'_>,
    two: Enabled<'_>,
) -> Result<(), NoMemory> {
    let first = mend(notes, scene, encoder, finding, one, two)?;
    let second = mend(notes, scene, encoder, finding, two, one)?;
    match (first, second) {
        (Some(first), Some(second)) => {
            tell_mend(notes, scene, "either ", first)?;
            tell_mend(notes, scene, "or ", second)
        }
        (Some(first), None) => tell_mend(notes, scene, "", first),
        (None, Some(second)) => tell_mend(notes, scene, "", second),
        (None, None) => Ok(()),
    }
}

/// The component of a member, if it is a transition.
fn component_of(machine: &Machine<'_>, member: Member) -> Option<u32> {
    match member {
        Member::Transition(number) => {
            let transition = machine.all_transitions().get(number as usize)?;
            Some(transition.component())
        }
        Member::SendCase(_) => None,
        Member::FunctionCase { .. } => None,
    }
}

/// Tells rows that mend a group in which two members are enabled that are written in one component, send or function.
pub fn tell_mends(
    notes: &mut Notes<'_>,
    scene: &Scene<'_, '_>,
    encoder: &mut Encoder<'_, '_>,
    finding: Finding<'_>,
    one: Member,
    two: Member,
) -> Result<(), NoMemory> {
    let machine = scene.machine;
    if component_of(machine, one) != component_of(machine, two) {
        return Ok(());
    }
    let Some(one) = enabled_member(machine, one, finding.truths) else {
        return Ok(());
    };
    let Some(two) = enabled_member(machine, two, finding.truths) else {
        return Ok(());
    };
    tell_between(notes, scene, encoder, finding, one, two)
}
