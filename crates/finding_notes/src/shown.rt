//! Which members of a group are shown, and in which order.

use crate::finding::Finding;
use elaborate::Machine;
use ground_groups::Member;
use table_notes::{TruthTable, member_at, member_count, rows_of};
use written_members::guard_of;

/// A member at a place of a group, and how many cells of its guard fail at least.
#[derive(Clone, Copy)]
pub struct Ranked {
    pub member: Member,
    place: u32,
    failures: usize,
}

/// The member at a place of a group, if it is shown: of more than one, only those that are enabled.
fn shown_at(machine: &Machine<'_>, finding: Finding<'_>, place: u32) -> Option<Ranked> {
    let member = member_at(machine, finding.group, place)?;
    let table = TruthTable {
        rows: rows_of(guard_of(machine, member)?),
        truths: finding.truths,
    };
    let failures = table.fewest_failures();
    if finding.is_double && failures > 0 {
        return None;
    }
    Some(Ranked {
        member,
        place,
        failures,
    })
}

/// How many members are shown.
pub fn shown_count(machine: &Machine<'_>, finding: Finding<'_>) -> usize {
    let mut count: usize = 0;
    for place in 0..member_count(machine, finding.group) {
        if shown_at(machine, finding, place).is_some() {
            count = count.saturating_add(1);
        }
    }
    count
}

/// Whether one member is shown before another: with fewer cells that fail, or as many at an earlier place.
fn is_before(one: Ranked, other: Ranked) -> bool {
    one.failures < other.failures || one.failures == other.failures && one.place < other.place
}

/// Whether a member is shown behind the last one and before the next so far.
fn is_between(one: Ranked, last: Option<Ranked>, next: Option<Ranked>) -> bool {
    let is_behind = match last {
        Some(last) => is_before(last, one),
        None => true,
    };
    match next {
        Some(next) => is_behind && is_before(one, next),
        None => is_behind,
    }
}

/// The member that is shown next behind the last one.
pub fn next(machine: &Machine<'_>, finding: Finding<'_>, last: Option<Ranked>) -> Option<Ranked> {
    let mut next = None;
    for place in 0..member_count(machine, finding.group) {
        if let Some(one) = shown_at(machine, finding, place)
            && is_between(one, last, next)
        {
            next = Some(one);
        }
    }
    next
}

/// The first two members that are shown.
pub fn first_two(machine: &Machine<'_>, finding: Finding<'_>) -> Option<(Member, Member)> {
    let one = next(machine, finding, None)?;
    let two = next(machine, finding, Some(one))?;
    Some((one.member, two.member))
}
