//! Marks on numbers.
use rsml_base::NoMemory;
use std::alloc::Global;

/// For each of some numbers, from 0, whether it is marked.
#[derive(Drop)]
pub struct Marks {
    marks: Vec<bool>,
}

impl Marks {
    /// So many numbers, none of them marked.
    pub fn new(alloc: Global, count: usize) -> Result<Marks, NoMemory> {
        let marks = vec![in alloc; false; count]?;
        Ok(Marks { marks })
    }

    /// Whether a number is marked.
    pub fn has(&self, number: u32) -> bool {
        self.marks.get(number as usize).copied().unwrap_or(false)
    }

    /// Marks a number, and answers whether it had no mark before. A number past all is not marked.
    pub fn mark(&mut self, number: u32) -> bool {
        let place = number as usize;
        if place >= self.marks.len() || self.marks[place] {
            return false;
        }
        self.marks[place] = true;
        true
    }

    /// Takes the mark off a number.
    pub fn unmark(&mut self, number: u32) {
        let place = number as usize;
        if place < self.marks.len() {
            self.marks[place] = false;
        }
    }
}
