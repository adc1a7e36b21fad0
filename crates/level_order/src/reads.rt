//! What states, phrases and definitions read, stored.
use crate::lists::Lists;
use crate::sets::PartSet;
use and_or_tables::GroundTable;
use rsml_base::NoMemory;
use rsml_ground::GroundGuard;
use std::alloc::Global;

/// What states, phrases and definitions read: the parts on which it rests whether a state is active and whether a phrase or a table
/// is true, in the order in which they are named, each once. Of more parts than a support may have only the first ones are kept.
pub struct Reads {
    /// For each state the components around it.
    lines: Lists,
    /// What phrases and definitions read. A phrase that names a definition has the list of that.
    lists: Lists,
    /// For each of the first phrases the number of its list.
    of_phrases: Vec<usize>,
    /// For each definition the number of its list, where it has one.
    of_definitions: Vec<Option<usize>>,
}

impl Drop for Reads {
    fn drop(self) {
        let Self {
            lines: _,
            lists: _,
            of_phrases: _,
            of_definitions: _,
        } = self;
    }
}

impl Reads {
    /// States on these lines, and so many definitions. No phrase and no definition has a list.
    pub fn new(alloc: Global, lines: Lists, definitions: usize) -> Result<Reads, NoMemory> {
        Ok(Reads {
            lines,
            lists: Lists::new(alloc),
            of_phrases: Vec::new(alloc),
            of_definitions: vec![in alloc; None; definitions]?,
        })
    }

    /// The components around a state, from the top inwards.
    pub fn line(&self, node: u32) -> &[u32] {
        self.lines.get(node as usize)
    }

    /// All that phrases and definitions read, a list for each.
    pub fn lists(&self) -> &Lists {
        &self.lists
    }

    /// Adds a list, and answers its number.
    pub fn add_list(&mut self, list: &[u32]) -> Result<usize, NoMemory> {
        self.lists.add(list)
    }

    /// The next phrase reads the parts of this list.
    pub fn add_phrase(&mut self, list: usize) -> Result<(), NoMemory> {
        self.of_phrases.push(list)?;
        Ok(())
    }

    /// A definition reads the parts of this list.
    pub fn set_definition(&mut self, definition: u32, list: usize) {
        let place = definition as usize;
        if place < self.of_definitions.len() {
            self.of_definitions[place] = Some(list);
        }
    }

    /// The number of the list of a definition, where it has one.
    pub fn list_of(&self, definition: u32) -> Option<usize> {
        match self.of_definitions.get(definition as usize) {
            Some(list) => *list,
            None => None,
        }
    }

    /// Puts what a guard reads into a set.
    pub fn put_guard(&self, guard: &GroundGuard, set: &mut PartSet) -> Result<(), NoMemory> {
        match guard {
            GroundGuard::Always => Ok(()),
            GroundGuard::Table(table) => self.put_table(table, set),
        }
    }

    /// Puts what a table reads into a set.
    pub fn put_table(&self, table: &GroundTable, set: &mut PartSet) -> Result<(), NoMemory> {
        for row in table.rows.as_slice() {
            set.add_all(self.phrase(row.phrase))?;
        }
        Ok(())
    }

    /// Puts what phrases read into a set.
    pub fn put_phrases(&self, phrases: &[u32], set: &mut PartSet) -> Result<(), NoMemory> {
        for phrase in phrases {
            set.add_all(self.phrase(*phrase))?;
        }
        Ok(())
    }

    /// What a phrase reads. No parts where it has no list yet.
    fn phrase(&self, number: u32) -> &[u32] {
        match self.of_phrases.get(number as usize) {
            Some(list) => self.lists.get(*list),
            None => &[],
        }
    }
}
