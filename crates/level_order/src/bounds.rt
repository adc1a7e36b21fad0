//! Comparisons of one cell with numbers.
use crate::parts::Parts;
use crate::sums::only_cell;
use macros::Macros;
use rsml_base::NoMemory;
use rsml_ground::GroundPhrase;
use std::alloc::Global;

/// For each cell the phrases that compare it alone, with numbers: the first of those that are alike.
#[derive(Drop)]
pub struct Bounds {
    of: Vec<Vec<u32>>,
}

impl Bounds {
    /// Those of a machine.
    pub fn new(alloc: Global, macros: &Macros<'_>, parts: &Parts<'_>) -> Result<Bounds, NoMemory> {
        let mut bounds = Bounds::empty(alloc, parts.cells())?;
        for phrase in 0..macros.phrases() {
            if parts.is_first(phrase) {
                bounds.add(macros.phrase(phrase), phrase)?;
            }
        }
        Ok(bounds)
    }

    /// Adds comparisons, of which the first has this number.
    pub fn add_beside(&mut self, beside: &[GroundPhrase], first: u32) -> Result<(), NoMemory> {
        let mut number = first;
        for phrase in beside {
            self.add(phrase, number)?;
            number = number.saturating_add(1);
        }
        Ok(())
    }

    /// The phrases that compare a cell alone. None where there is no such cell.
    pub fn of(&self, cell: u32) -> &[u32] {
        match self.of.get(cell as usize) {
            Some(phrases) => phrases.as_slice(),
            None => &[],
        }
    }

    /// No phrases, for so many cells.
    fn empty(alloc: Global, cells: u32) -> Result<Bounds, NoMemory> {
        let mut of = Vec::new(alloc);
        for _cell in 0..cells {
            of.push(Vec::new(alloc))?;
        }
        Ok(Bounds { of })
    }

    /// Adds a phrase of this number, where it compares one cell.
    fn add(&mut self, phrase: &GroundPhrase, number: u32) -> Result<(), NoMemory> {
        if let GroundPhrase::Compare { left, right, .. } = phrase {
            if let Some(cell) = only_cell(left, right) {
                self.add_to(cell as usize, number)?;
            }
        }
        Ok(())
    }

    /// Adds a phrase to those of a cell.
    fn add_to(&mut self, cell: usize, phrase: u32) -> Result<(), NoMemory> {
        if cell < self.of.len() {
            self.of[cell].push(phrase)?;
        }
        Ok(())
    }
}
