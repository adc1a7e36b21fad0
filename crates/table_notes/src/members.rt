//! The members of groups.

use elaborate::Machine;
use ground_groups::Member;

/// How many members a group has.
pub fn member_count(machine: &Machine<'_>, group: u32) -> u32 {
    let groups = machine.groups();
    if group < groups.count() {
        groups.members(group)
    } else {
        0
    }
}

/// The member at a place of a group.
pub fn member_at(machine: &Machine<'_>, group: u32, place: u32) -> Option<Member> {
    let groups = machine.groups();
    if group < groups.count() && place < groups.members(group) {
        Some(groups.member(group, place))
    } else {
        None
    }
}
