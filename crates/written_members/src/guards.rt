//! The guards of members.

use and_or_tables::GroundTable;
use elaborate::Machine;
use ground_groups::Member;
use rsml_ground::{Definition, GroundCase, GroundGuard};

/// The guard of the case at a place.
fn case_guard(cases: &[GroundCase], place: u32) -> Option<&GroundGuard> {
    let case = cases.get(place as usize)?;
    Some(&case.guard)
}

/// The macro or function instance of a number.
pub fn definition_of<'m>(machine: &'m Machine<'_>, number: u32) -> Option<&'m Definition> {
    let macros = machine.macros();
    if (number as usize) < macros.definitions() {
        Some(macros.definition(number))
    } else {
        None
    }
}

/// The guard of a member.
pub fn guard_of<'m>(machine: &'m Machine<'_>, member: Member) -> Option<&'m GroundGuard> {
    match member {
        Member::Transition(number) => {
            let transition = machine.all_transitions().get(number as usize)?;
            Some(transition.guard())
        }
        Member::SendCase(number) => {
            let case = machine.all_send_cases().get(number as usize)?;
            Some(case.guard())
        }
        Member::FunctionCase { function, place } => match definition_of(machine, function)? {
            Definition::Macro(_) => None,
            Definition::Function(cases) => case_guard(cases.as_slice(), place),
        },
    }
}

/// How many columns a table has.
pub fn width(table: &GroundTable) -> usize {
    match table.rows.get(0) {
        Some(row) => row.cells.len(),
        None => 0,
    }
}
