//! Parts that are read together with very many others.
use rsml_base::NoMemory;
use std::alloc::Global;

/// With how many others a part may be read before it counts as shared by all.
const MOST: usize = 24;

/// For each part the others that it is read with, one more than that at most.
#[derive(Drop)]
pub struct Neighbours {
    of: Vec<Vec<u32>>,
}

impl Neighbours {
    /// For so many parts, none of which is read with another.
    pub fn new(alloc: Global, count: u32) -> Result<Neighbours, NoMemory> {
        let mut of = Vec::new(alloc);
        for _part in 0..count {
            of.push(Vec::new(alloc))?;
        }
        Ok(Neighbours { of })
    }

    /// Each part of a support is read with each other.
    pub fn add(&mut self, support: &[u32]) -> Result<(), NoMemory> {
        for part in support {
            self.add_to(*part, support)?;
        }
        Ok(())
    }

    /// A part is read with each other of a support.
    fn add_to(&mut self, part: u32, support: &[u32]) -> Result<(), NoMemory> {
        for other in support {
            self.add_one(part as usize, *other)?;
        }
        Ok(())
    }

    /// A part is read with another.
    fn add_one(&mut self, part: usize, other: u32) -> Result<(), NoMemory> {
        if part < self.of.len()
            && self.of[part].len() <= MOST
            && !has(self.of[part].as_slice(), other)
        {
            self.of[part].push(other)?;
        }
        Ok(())
    }

    /// Whether a part is read with more others than one may be.
    pub fn are_many(&self, part: u32) -> bool {
        match self.of.get(part as usize) {
            Some(others) => others.len() > MOST,
            None => false,
        }
    }
}

/// Whether a part is among these.
fn has(parts: &[u32], part: u32) -> bool {
    parts.iter().any(|other| *other == part)
}
