//! The members of a group, and how they are called.

use elaborate::Machine;
use ground_groups::Member;
use instance_texts::{put_case_label, put_label};
use rsml_base::NoMemory;
use std::alloc::Global;
use text_writer::Draft;

/// Adds the members of a group.
fn add_members(
    members: &mut Vec<Member>,
    machine: &Machine<'_>,
    group: u32,
) -> Result<(), NoMemory> {
    let groups = machine.groups();
    if group < groups.count() {
        for place in 0..groups.members(group) {
            members.push(groups.member(group, place))?;
        }
    }
    Ok(())
}

/// The members of a group.
pub fn members(alloc: Global, machine: &Machine<'_>, group: u32) -> Result<Vec<Member>, NoMemory> {
    let mut members = Vec::new(alloc);
    add_members(&mut members, machine, group)?;
    Ok(members)
}

/// Puts the label of a member.
pub fn put_member(line: &mut Draft, machine: &Machine<'_>, member: Member) {
    match member {
        Member::Transition(number) => {
            if let Some(transition) = machine.all_transitions().get(number as usize) {
                put_label(line, machine.tree(), transition);
            }
        }
        Member::SendCase(number) => {
            if let Some(case) = machine.all_send_cases().get(number as usize) {
                put_case_label(line, case.ordinal());
            }
        }
        Member::FunctionCase { place, .. } => put_case_label(line, place.saturating_add(1)),
    }
}
