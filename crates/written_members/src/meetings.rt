//! Where two events meet that are present together.

use crate::reached::transitions_on;
use elaborate::Machine;
use ground_groups::Member;

/// A member on one event, and a member on another that it meets.
#[derive(Clone, Copy)]
pub struct Meeting {
    pub one: Member,
    pub two: Member,
}

/// What meets.
#[derive(Clone, Copy)]
enum Sort {
    Transitions,
    SendCases,
}

/// The cases of sends on an event.
fn cases_on<'m>(machine: &'m Machine<'_>, event: u32) -> &'m [u32] {
    if event < machine.events() {
        machine.cases_on(event)
    } else {
        &[]
    }
}

/// The numbers of those of a sort that are on an event.
fn numbers_on<'m>(machine: &'m Machine<'_>, sort: Sort, event: u32) -> &'m [u32] {
    match sort {
        Sort::Transitions => transitions_on(machine, event),
        Sort::SendCases => cases_on(machine, event),
    }
}

/// The member of a sort and number.
fn member(sort: Sort, number: u32) -> Member {
    match sort {
        Sort::Transitions => Member::Transition(number),
        Sort::SendCases => Member::SendCase(number),
    }
}

/// The source of a transition.
fn source_of(machine: &Machine<'_>, transition: u32) -> Option<u32> {
    let transition = machine.all_transitions().get(transition as usize)?;
    Some(transition.source())
}

/// The send of a case.
pub fn send_of(machine: &Machine<'_>, case: u32) -> Option<u32> {
    let case = machine.all_send_cases().get(case as usize)?;
    Some(case.send())
}

/// Whether two states lie on one line.
fn are_on_one_line(machine: &Machine<'_>, one: u32, two: u32) -> bool {
    let tree = machine.tree();
    one < tree.nodes() && two < tree.nodes() && tree.on_one_line(one, two)
}

/// Whether the sources of two transitions lie on one line, or two cases are of one send.
fn do_meet(machine: &Machine<'_>, sort: Sort, one: u32, two: u32) -> Option<bool> {
    match sort {
        Sort::Transitions => Some(are_on_one_line(
            machine,
            source_of(machine, one)?,
            source_of(machine, two)?,
        )),
        Sort::SendCases => Some(send_of(machine, one)? == send_of(machine, two)?),
    }
}

/// The first of these that another of the same sort meets.
fn met_by(machine: &Machine<'_>, sort: Sort, one: u32, others: &[u32]) -> Option<u32> {
    for other in others {
        if do_meet(machine, sort, one, *other) == Some(true) {
            return Some(*other);
        }
    }
    None
}

/// Where those of a sort on two events meet.
fn first_meeting(machine: &Machine<'_>, sort: Sort, one: u32, two: u32) -> Option<Meeting> {
    let others = numbers_on(machine, sort, two);
    for number in numbers_on(machine, sort, one) {
        if let Some(other) = met_by(machine, sort, *number, others) {
            return Some(Meeting {
                one: member(sort, *number),
                two: member(sort, other),
            });
        }
    }
    None
}

/// Where two events meet.
pub fn where_met(machine: &Machine<'_>, one: u32, two: u32) -> Option<Meeting> {
    match first_meeting(machine, Sort::Transitions, one, two) {
        Some(meeting) => Some(meeting),
        None => first_meeting(machine, Sort::SendCases, one, two),
    }
}
