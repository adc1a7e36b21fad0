//! What a group reads of a world: components, cells and phrases, also those behind macros, functions and quantifiers.

use crate::{cell_at, member_at, member_count, rows_of};
use and_or_tables::GroundRow;
use elaborate::Machine;
use ground_groups::GroupKind;
use rsml_base::NoMemory;
use rsml_ground::{Definition, GroundCase, GroundOperand, GroundPhrase, GroundSum};
use rsml_syntax::Cell;
use state_tree::Tree;
use std::alloc::Global;
use written_members::{definition_of, guard_of};

/// How many states stand around one another at most.
const MOST_DEPTH: u32 = 16;

/// What may be read, by its number.
#[derive(Clone, Copy)]
pub enum Read {
    Component(u32),
    Cell(u32),
    Phrase(u32),
}

/// What is read: a mark for each component, then for each cell, then for each phrase.
#[derive(Drop)]
pub struct Reads {
    components: usize,
    cells: usize,
    marks: Vec<bool>,
}

impl Reads {
    /// Nothing so far.
    pub fn new(alloc: Global, machine: &Machine<'_>) -> Result<Reads, NoMemory> {
        let components = machine.tree().components() as usize;
        let cells = machine.cells();
        let count = components
            .saturating_add(cells)
            .saturating_add(machine.macros().phrases() as usize);
        let marks = Vec::from_elem(alloc, false, count)?;
        Ok(Reads {
            components,
            cells,
            marks,
        })
    }

    /// The place of a mark.
    fn place(&self, read: Read) -> usize {
        match read {
            Read::Component(number) => number as usize,
            Read::Cell(number) => self.components.saturating_add(number as usize),
            Read::Phrase(number) => self
                .components
                .saturating_add(self.cells)
                .saturating_add(number as usize),
        }
    }

    /// Marks what is read.
    fn mark(&mut self, read: Read) {
        let place = self.place(read);
        if place < self.marks.len() {
            self.marks[place] = true;
        }
    }

    /// Whether this is read.
    pub fn has(&self, read: Read) -> bool {
        match self.marks.get(self.place(read)) {
            Some(marked) => *marked,
            None => false,
        }
    }
}

/// Reads whether a state is active: the components around it.
fn read_state(reads: &mut Reads, tree: &Tree<'_>, state: u32) {
    let mut inner = state;
    for _ in 0..MOST_DEPTH {
        let Some(outer) = tree.parent(inner) else {
            break;
        };
        if let Some(component) = tree.component_of(outer) {
            reads.mark(Read::Component(component));
        }
        inner = outer;
    }
}

/// Reads the cells of a sum.
fn read_sum(reads: &mut Reads, sum: &GroundSum) {
    for term in sum.terms.as_slice() {
        match term.operand {
            GroundOperand::Number(_) => {}
            GroundOperand::Cell(cell) => reads.mark(Read::Cell(cell)),
        }
    }
}

/// Reads phrases.
fn read_phrases(reads: &mut Reads, numbers: &[u32]) {
    for number in numbers {
        reads.mark(Read::Phrase(*number));
    }
}

/// Reads the phrases of rows.
fn read_rows(reads: &mut Reads, rows: &[GroundRow]) {
    for row in rows {
        reads.mark(Read::Phrase(row.phrase));
    }
}

/// Reads the guards and values of cases.
fn read_cases(reads: &mut Reads, cases: &[GroundCase]) {
    for case in cases {
        read_rows(reads, rows_of(&case.guard));
        read_sum(reads, &case.value);
    }
}

/// Reads a macro or function.
fn read_definition(reads: &mut Reads, machine: &Machine<'_>, number: u32) {
    match definition_of(machine, number) {
        Some(Definition::Macro(table)) => read_rows(reads, table.rows.as_slice()),
        Some(Definition::Function(cases)) => read_cases(reads, cases.as_slice()),
        None => {}
    }
}

/// Reads what a phrase names.
fn read_phrase(reads: &mut Reads, machine: &Machine<'_>, phrase: &GroundPhrase) {
    match phrase {
        GroundPhrase::In(state) => read_state(reads, machine.tree(), *state),
        GroundPhrase::Macro(number) => read_definition(reads, machine, *number),
        GroundPhrase::Any(numbers) => read_phrases(reads, numbers.as_slice()),
        GroundPhrase::Every(numbers) => read_phrases(reads, numbers.as_slice()),
        GroundPhrase::Compare { left, right, .. } => {
            read_sum(reads, left);
            read_sum(reads, right);
        }
        GroundPhrase::Function { function, .. } => read_definition(reads, machine, *function),
    }
}

/// Reads what all phrases name that are read. A phrase names only phrases of lower numbers.
fn read_named(reads: &mut Reads, machine: &Machine<'_>) {
    let mut number = machine.macros().phrases();
    for _ in 0..machine.macros().phrases() {
        number = number.saturating_sub(1);
        if reads.has(Read::Phrase(number)) && number < machine.macros().phrases() {
            read_phrase(reads, machine, machine.macros().phrase(number));
        }
    }
}

/// Reads the condition of a group: whether its state is active, and the states inside it that have a group on its event.
fn read_condition(reads: &mut Reads, machine: &Machine<'_>, group: u32) {
    let groups = machine.groups();
    if group < groups.count()
        && let GroupKind::State { state, .. } = groups.kind(group)
    {
        read_state(reads, machine.tree(), state);
        for below in groups.below(group) {
            read_state(reads, machine.tree(), *below);
        }
    }
}

/// Reads the guards of the members of a group.
fn read_guards(reads: &mut Reads, machine: &Machine<'_>, group: u32) {
    for place in 0..member_count(machine, group) {
        if let Some(member) = member_at(machine, group, place)
            && let Some(guard) = guard_of(machine, member)
        {
            read_rows(reads, rows_of(guard));
        }
    }
}

/// Reads what the condition and the members of a group read.
pub fn read_group(reads: &mut Reads, machine: &Machine<'_>, group: u32) {
    read_condition(reads, machine, group);
    read_guards(reads, machine, group);
    read_named(reads, machine);
}

/// Reads what a column of rows asks for, and whether a state is active.
pub fn read_column(
    reads: &mut Reads,
    machine: &Machine<'_>,
    rows: &[GroundRow],
    column: usize,
    state: Option<u32>,
) {
    if let Some(state) = state {
        read_state(reads, machine.tree(), state);
    }
    for row in rows {
        if cell_at(row, column) != Cell::Dot {
            reads.mark(Read::Phrase(row.phrase));
        }
    }
    read_named(reads, machine);
}
