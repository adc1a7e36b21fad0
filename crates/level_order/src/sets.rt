//! A set of parts that is being put together.
use crate::marks::Marks;
use rsml_base::NoMemory;
use std::alloc::Global;

/// How many parts a support may have. What reads more of them says little about which belong together.
pub const MOST_PARTS: usize = 64;

/// Parts in the order in which they were added, each once. One more than a support may have tells that there are too many, and no
/// more are added.
pub struct PartSet {
    parts: Vec<u32>,
    is_in: Marks,
}

impl Drop for PartSet {
    fn drop(self) {
        let Self { parts: _, is_in: _ } = self;
    }
}

impl PartSet {
    /// The empty set, for so many parts.
    pub fn new(alloc: Global, count: u32) -> Result<PartSet, NoMemory> {
        Ok(PartSet {
            parts: Vec::new(alloc),
            is_in: Marks::new(alloc, count as usize)?,
        })
    }

    /// The parts, in order.
    pub fn as_slice(&self) -> &[u32] {
        self.parts.as_slice()
    }

    /// Takes all parts out.
    pub fn clear(&mut self) {
        for part in self.parts.iter() {
            self.is_in.unmark(*part);
        }
        self.parts.clear();
    }

    /// Adds a part, unless the set has it, or too many. A number past all parts is left out.
    pub fn add(&mut self, part: u32) -> Result<(), NoMemory> {
        if self.parts.len() <= MOST_PARTS && self.is_in.mark(part) {
            self.parts.push(part)?;
        }
        Ok(())
    }

    /// Adds parts, one after another.
    pub fn add_all(&mut self, parts: &[u32]) -> Result<(), NoMemory> {
        for part in parts {
            self.add(*part)?;
        }
        Ok(())
    }
}
