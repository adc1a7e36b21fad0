//! What rounds ask for, and what of it is true there.
ghost use Rattle.rsml_meaning.specs.Worlds.{IsWorld};

use crate::parts::{Part, parts_of};
use and_or_tables::{GroundRow, Truths};
use elaborate::Machine;
use ground_groups::Member;
use ground_members::{GroundAnswer, GroundValue};
use rsml_base::NoMemory;
use rsml_ground::{Definition, GroundPhrase};
use rsml_syntax::World;
use std::alloc::Global;
use table_notes::rows_of;
use written_members::{definition_of, guard_of};

/// A mark for each phrase that a round asks for, and then for each macro and function instance.
#[derive(Drop)]
struct Marks {
    phrases: usize,
    marks: Vec<bool>,
}

impl Marks {
    fn mark(&mut self, place: usize) {
        if let Some(mark) = self.marks.get_mut(place) {
            *mark = true;
        }
    }

    fn is_marked(&self, place: usize) -> bool {
        match self.marks.get(place) {
            Some(mark) => *mark,
            None => false,
        }
    }

    /// The place of a macro or function instance.
    fn place_of(&self, definition: u32) -> usize {
        self.phrases.saturating_add(definition as usize)
    }

    /// Marks the phrases of rows.
    fn mark_rows(&mut self, rows: &[GroundRow]) {
        for row in rows {
            self.mark(row.phrase as usize);
        }
    }

    /// Marks a macro or function instance, and the phrases of its tables.
    fn mark_definition(&mut self, machine: &Machine<'_>, number: u32) {
        let place = self.place_of(number);
        self.mark(place);
        match definition_of(machine, number) {
            Some(Definition::Macro(table)) => self.mark_rows(table.rows.as_slice()),
            Some(Definition::Function(cases)) => {
                for case in cases.as_slice() {
                    self.mark_rows(rows_of(&case.guard));
                }
            }
            None => {}
        }
    }

    /// Marks the phrases of the table of a member.
    fn mark_guard(&mut self, machine: &Machine<'_>, member: Member) {
        if let Some(guard) = guard_of(machine, member) {
            self.mark_rows(rows_of(guard));
        }
    }

    /// Marks the functions whose values a case of a send sends.
    fn mark_values(&mut self, machine: &Machine<'_>, case: u32) {
        if let Some(case) = machine.all_send_cases().get(case as usize)
            && let GroundAnswer::Values(values) = case.answer()
        {
            for value in values.as_slice() {
                if let GroundValue::Function(function) = value {
                    self.mark_definition(machine, *function);
                }
            }
        }
    }

    /// Marks what a phrase names.
    fn mark_named(&mut self, machine: &Machine<'_>, phrase: &GroundPhrase) {
        match phrase {
            GroundPhrase::Macro(number) => self.mark_definition(machine, *number),
            GroundPhrase::Function { function, .. } => self.mark_definition(machine, *function),
            GroundPhrase::Any(numbers) | GroundPhrase::Every(numbers) => {
                for number in numbers.as_slice() {
                    self.mark(*number as usize);
                }
            }
            GroundPhrase::In(_) | GroundPhrase::Compare { .. } => {}
        }
    }

    /// Marks what all marked phrases name. A phrase names only phrases of lower numbers.
    fn mark_all(&mut self, machine: &Machine<'_>) {
        let macros = machine.macros();
        let mut number = macros.phrases();
        for _ in 0..macros.phrases() {
            number = number.saturating_sub(1);
            if self.is_marked(number as usize) && number < macros.phrases() {
                self.mark_named(machine, macros.phrase(number));
            }
        }
    }
}

/// Which columns of macros and which cases of functions rounds asked for, and which were true there. Only `new` takes memory.
pub struct Seen<'m> {
    truths: Truths,
    marks: Marks,
    pub parts: Vec<Part<'m>>,
}

impl Drop for Seen<'_> {
    fn drop(self) {
        let Self {
            truths: _,
            marks: _,
            parts: _,
        } = self;
    }
}

impl<'m> Seen<'m> {
    /// Nothing yet.
    pub fn new(alloc: Global, machine: &'m Machine<'_>) -> Result<Seen<'m>, NoMemory> {
        let count = machine.macros().phrases();
        let phrases = count as usize;
        let all = phrases.saturating_add(machine.macros().definitions());
        let truths = Truths::new(alloc, count)?;
        let marks = Vec::from_elem(alloc, false, all)?;
        let parts = parts_of(alloc, machine)?;
        Ok(Seen {
            truths,
            marks: Marks { phrases, marks },
            parts,
        })
    }

    /// Has the phrases the truths that they have in the world before a round.
    pub fn read(&mut self, machine: &Machine<'_>, world: &World)
        requires { IsWorld machine.now.base.spec world.now }
    {
        let macros = machine.macros();
        if self.truths.len() == macros.phrases() {
            macros.fill(machine.tree(), world, &mut self.truths);
        }
    }

    /// Marks all that is asked for by the tables of the transitions that a round takes, and of the cases of sends that it chooses, and the
    /// functions whose values these send.
    pub fn ask_all(&mut self, machine: &Machine<'_>, taken: &[u32], sent: &[u32]) {
        self.marks.marks.fill(false);
        for number in taken {
            self.marks.mark_guard(machine, Member::Transition(*number));
        }
        for number in sent {
            self.marks.mark_guard(machine, Member::SendCase(*number));
            self.marks.mark_values(machine, *number);
        }
        self.marks.mark_all(machine);
    }

    /// Keeps what is asked for, and what of it is true.
    pub fn keep(&mut self) {
        for part in self.parts.iter_mut() {
            if self.marks.is_marked(self.marks.place_of(part.definition)) {
                part.was_asked = true;
                part.was_true = part.was_true || part.columns.are_true(&self.truths);
            }
        }
    }
}
