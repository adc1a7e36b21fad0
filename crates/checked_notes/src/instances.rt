//! The guards of a machine, as instances of those that are written.

use crate::items::Item;
use and_or_tables::GroundRow;
use elaborate::Machine;
use ground_members::SharedTransition;
use macros::Macros;
use rsml_base::{NoMemory, Text};
use rsml_ground::Definition;
use rsml_names::transitions_of;
use std::alloc::Global;
use table_notes::{Asked, rows_of};

/// The numbers of so many instances: the first, and what is between two of them.
#[derive(Clone, Copy)]
pub struct Numbers {
    pub first: usize,
    pub step: usize,
    pub many: u64,
}

/// The guards of the instances of one that is written. Once memory is refused, some may be missing.
#[derive(Drop)]
struct Instances<'m> {
    all: Vec<Asked<'m>>,
    is_refused: bool,
}

/// The macro or function instance of a number.
fn definition_at<'m>(macros: &'m Macros<'_>, number: usize) -> Option<&'m Definition> {
    let place = match u32::try_from(number) {
        Ok(place) => place,
        Err(_) => return None,
    };
    if number < macros.definitions() {
        Some(macros.definition(place))
    } else {
        None
    }
}

/// The rows of a macro instance, or of the case at a place of a function instance.
fn rows_of_definition(definition: &Definition, place: usize) -> Option<&[GroundRow]> {
    match definition {
        Definition::Macro(table) => Some(table.rows.as_slice()),
        Definition::Function(cases) => Some(rows_of(&cases.get(place)?.guard)),
    }
}

/// The rows of the instance of a number of what a declaration has.
fn rows_at<'m>(machine: &'m Machine<'_>, item: Item<'_>, number: usize) -> Option<&'m [GroundRow]> {
    match item {
        Item::Macro { .. } => rows_of_definition(definition_at(machine.macros(), number)?, 0),
        Item::FunctionCase { place, .. } => {
            rows_of_definition(definition_at(machine.macros(), number)?, place)
        }
        Item::SendCase { .. } => Some(rows_of(machine.all_send_cases().get(number)?.guard())),
        Item::Transition { .. } => None,
    }
}

/// The source of a transition, as it is written.
fn written_source<'m>(
    machine: &'m Machine<'_>,
    transition: &SharedTransition,
    place: usize,
) -> Option<&'m Text> {
    let tree = machine.tree();
    let component = tree.parent(transition.source())?;
    let body = tree.states().body(component)?;
    Some(&transitions_of(body).get(place)?.source)
}

/// Whether a transition is an instance of the one with this source at a place of its component.
fn is_instance(
    machine: &Machine<'_>,
    transition: &SharedTransition,
    source: &Text,
    place: usize,
) -> bool {
    if transition.ordinal() as usize != place.saturating_add(1) {
        return false;
    }
    match written_source(machine, transition, place) {
        Some(written) => written.at() == source.at(),
        None => false,
    }
}

impl<'m> Instances<'m> {
    fn add(&mut self, rows: &'m [GroundRow], source: Option<u32>) {
        if self.all.push(Asked { rows, source }).is_err() {
            self.is_refused = true;
        }
    }

    /// Those of what a declaration has.
    fn add_numbered(&mut self, machine: &'m Machine<'_>, item: Item<'_>, numbers: Numbers) {
        let mut number = numbers.first;
        for _ in 0..numbers.many {
            if let Some(rows) = rows_at(machine, item, number) {
                self.add(rows, None);
            }
            number = number.saturating_add(numbers.step);
        }
    }

    /// Those of the transition with this source at a place of its component.
    fn add_transitions(&mut self, machine: &'m Machine<'_>, source: &Text, place: usize) {
        for transition in machine.all_transitions() {
            if is_instance(machine, transition, source, place) {
                self.add(rows_of(transition.guard()), Some(transition.source()));
            }
        }
    }

    /// Those of a guard. The numbers are of instances of what a declaration has.
    fn add_all(&mut self, machine: &'m Machine<'_>, item: Item<'_>, numbers: Numbers) {
        match item {
            Item::Transition { source, place } => self.add_transitions(machine, source, place),
            _ => self.add_numbered(machine, item, numbers),
        }
    }

    fn whole(self) -> Result<Vec<Asked<'m>>, NoMemory> {
        let Instances { all, is_refused } = self;
        if is_refused { Err(NoMemory) } else { Ok(all) }
    }
}

/// The guards of the instances of one that is written. The numbers are of instances of what a declaration has.
pub fn instances_of<'m>(
    alloc: Global,
    machine: &'m Machine<'_>,
    item: Item<'_>,
    numbers: Numbers,
) -> Result<Vec<Asked<'m>>, NoMemory> {
    let mut instances = Instances {
        all: Vec::new(alloc),
        is_refused: false,
    };
    instances.add_all(machine, item, numbers);
    instances.whole()
}
