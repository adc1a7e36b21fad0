//! The groups that are not sound.

use crate::failing::Failing;
use ground_groups::GroupKind;
use rsml_base::NoMemory;
use std::alloc::Global;
use table_notes::{member_at, member_count};
use world_columns::GroupGaps;
use written_members::{Scene, Written, written_at};

/// A group that fails: what it is of, and where the last of its members is written. That is of its state itself, if it is of a state.
#[derive(Clone, Copy)]
pub struct Gap {
    pub group: u32,
    pub kind: GroupKind,
    pub failing: Failing,
    pub last: Written,
}

/// A group, if it fails.
fn gap_at(scene: &Scene<'_, '_>, told: &[GroupGaps], group: u32) -> Option<Gap> {
    let groups = scene.machine.groups();
    if group >= groups.count() {
        return None;
    }
    let failing = match told.get(group as usize)? {
        GroupGaps::Sound => return None,
        GroupGaps::Missing(_) => Failing::Missing,
        GroupGaps::Double(_) => Failing::Double,
    };
    let place = member_count(scene.machine, group).saturating_sub(1);
    Some(Gap {
        group,
        kind: groups.kind(group),
        failing,
        last: written_at(scene, member_at(scene.machine, group, place)?)?,
    })
}

/// The groups that fail, by what is told of each.
pub fn gaps_of(
    alloc: Global,
    scene: &Scene<'_, '_>,
    told: &[GroupGaps],
) -> Result<Vec<Gap>, NoMemory> {
    let mut gaps = Vec::new(alloc);
    for group in 0..scene.machine.groups().count() {
        if let Some(gap) = gap_at(scene, told, group) {
            gaps.push(gap)?;
        }
    }
    Ok(gaps)
}

/// How many of these groups are written as one, and fail as it: those of the elements of an array.
pub fn count_alike(gaps: &[Gap], gap: Gap) -> usize {
    let mut count: usize = 0;
    for other in gaps {
        if other.last.table == gap.last.table && other.failing == gap.failing {
            count = count.saturating_add(1);
        }
    }
    count
}
