//! What is told of each group that is not sound.

use crate::columns::{Columns, columns_of};
use crate::drawing::tell_rows;
use crate::failing::{Failing, failing_worlds};
use crate::gaps::{Gap, count_alike, gaps_of};
use crate::heads::tell_head;
use crate::mending::is_alone;
use crate::rows::rows_in;
use ground_groups::GroupKind;
use guard_encode::Encoder;
use rsml_base::NoMemory;
use source_notes::{Notes, Piece};
use table_notes::NODES;
use world_columns::GroupGaps;
use written_members::Scene;

/// How many groups are told at most.
const MOST_GROUPS: usize = 50;

/// Tells of a group in which none is enabled whether two are elsewhere, and whether a member with the columns would mend it.
fn tell_mend(
    notes: &mut Notes<'_>,
    scene: &Scene<'_, '_>,
    encoder: &mut Encoder<'_, '_>,
    gap: Gap,
    columns: &Columns,
) -> Result<(), NoMemory> {
    let member = match gap.kind {
        GroupKind::State { .. } => "transition",
        _ => "case",
    };
    let double = failing_worlds(notes.alloc(), encoder, gap.group, Failing::Double)?;
    let is_double = !encoder.is_false(double);
    if is_double {
        notes.say_one("in other worlds two {}s are enabled", Piece::Words(member));
    }
    let is_part = columns.more || is_double;
    let form = match (
        is_alone(notes.alloc(), scene, encoder, gap, columns)?,
        is_part,
    ) {
        (false, _) => "a {} with this table would be enabled beside another one",
        (true, true) => "a {} with this table would mend this in part",
        (true, false) => "a {} with this table would mend this",
    };
    notes.say_one(form, Piece::Words(member));
    Ok(())
}

/// Tells the columns in which a group fails.
fn tell_columns(
    notes: &mut Notes<'_>,
    scene: &Scene<'_, '_>,
    encoder: &mut Encoder<'_, '_>,
    gap: Gap,
) -> Result<(), NoMemory> {
    let rows = rows_in(notes.alloc(), scene, gap.group)?;
    let columns = columns_of(notes.alloc(), encoder, gap, rows.as_slice())?;
    tell_rows(notes, scene, rows.as_slice(), columns.list.as_slice())?;
    if columns.more {
        notes.say("there are more columns than these");
    }
    match gap.failing {
        Failing::Missing => tell_mend(notes, scene, encoder, gap, &columns),
        Failing::Double => Ok(()),
    }
}

/// Tells a group, of which so many are written as one.
fn tell_gap(
    notes: &mut Notes<'_>,
    scene: &Scene<'_, '_>,
    encoder: &mut Encoder<'_, '_>,
    gap: Gap,
    alike: usize,
) -> Result<(), NoMemory> {
    tell_head(notes, scene, gap);
    if alike > 1 {
        notes.say_one("this is one of {} instances that fail", Piece::Count(alike));
    }
    encoder.limit(NODES);
    let told = tell_columns(notes, scene, encoder, gap);
    if told.is_err() && encoder.is_spent() {
        notes.say("more is not told of this: it would take too long");
        return Ok(());
    }
    told
}

/// Tells the groups that are not sound, by what is told of each; of those that are written as one the first.
pub fn tell_groups(
    notes: &mut Notes<'_>,
    scene: &Scene<'_, '_>,
    encoder: &mut Encoder<'_, '_>,
    told: &[GroupGaps],
) -> Result<(), NoMemory> {
    let gaps = gaps_of(notes.alloc(), scene, told)?;
    let mut before = Vec::new(notes.alloc());
    for gap in &gaps {
        if count_alike(before.as_slice(), *gap) == 0 {
            before.push(*gap)?;
            if before.len() <= MOST_GROUPS {
                let alike = count_alike(gaps.as_slice(), *gap);
                tell_gap(notes, scene, encoder, *gap, alike)?;
            }
        }
    }
    if before.len() > MOST_GROUPS {
        let left = before.len().saturating_sub(MOST_GROUPS);
        notes.say_one("and {} more", Piece::Count(left));
    }
    Ok(())
}
