//! Members that are written as one.

use elaborate::Machine;
use ground_groups::Member;
use ground_members::{SharedSendCase, SharedTransition};
use table_notes::{member_at, member_count};
use written_members::{Scene, written_at};

/// The place of a member in its component, send or function.
fn ordinal(machine: &Machine<'_>, member: Member) -> Option<u32> {
    match member {
        Member::Transition(number) => {
            let transition = machine.all_transitions().get(number as usize)?;
            Some(transition.ordinal())
        }
        Member::SendCase(number) => {
            let case = machine.all_send_cases().get(number as usize)?;
            Some(case.ordinal())
        }
        Member::FunctionCase { place, .. } => Some(place),
    }
}

/// The member at a place of a group, if it is written as another.
pub fn alike_at(scene: &Scene<'_, '_>, group: u32, place: u32, member: Member) -> Option<Member> {
    let machine = scene.machine;
    let other = member_at(machine, group, place)?;
    if ordinal(machine, other)? == ordinal(machine, member)?
        && written_at(scene, other)?.table == written_at(scene, member)?.table
    {
        Some(other)
    } else {
        None
    }
}

/// How many members of a group are written as another.
pub fn alike_count(scene: &Scene<'_, '_>, group: u32, member: Member) -> usize {
    let mut count: usize = 0;
    for place in 0..member_count(scene.machine, group) {
        if alike_at(scene, group, place, member).is_some() {
            count = count.saturating_add(1);
        }
    }
    count
}

/// The transition of a component at this place.
fn transition_of(transitions: &[SharedTransition], component: u32, ordinal: u32) -> Option<Member> {
    let mut number: u32 = 0;
    for transition in transitions {
        if transition.component() == component && transition.ordinal() == ordinal {
            return Some(Member::Transition(number));
        }
        number = number.saturating_add(1);
    }
    None
}

/// The case of a send at this place.
fn case_of(cases: &[SharedSendCase], send: u32, ordinal: u32) -> Option<Member> {
    let mut number: u32 = 0;
    for case in cases {
        if case.send() == send && case.ordinal() == ordinal {
            return Some(Member::SendCase(number));
        }
        number = number.saturating_add(1);
    }
    None
}

/// The member of the component, send or function of one member that is written as another.
pub fn beside(machine: &Machine<'_>, member: Member, other: Member) -> Option<Member> {
    let ordinal = ordinal(machine, other)?;
    match member {
        Member::Transition(number) => {
            let transition = machine.all_transitions().get(number as usize)?;
            transition_of(machine.all_transitions(), transition.component(), ordinal)
        }
        Member::SendCase(number) => {
            let case = machine.all_send_cases().get(number as usize)?;
            case_of(machine.all_send_cases(), case.send(), ordinal)
        }
        Member::FunctionCase { function, .. } => Some(Member::FunctionCase {
            function,
            place: ordinal,
        }),
    }
}
