//! Items that hang together.
use rsml_base::NoMemory;
use std::alloc::Global;

/// Items in trees: two hang together where their trees have one root. At first each is a root.
#[derive(Drop)]
pub struct UnionFind {
    /// For each item the one above it; a root has itself.
    above: Vec<u32>,
}

impl UnionFind {
    /// So many items, each by itself.
    pub fn new(alloc: Global, count: u32) -> Result<UnionFind, NoMemory> {
        let mut above = Vec::with_capacity(alloc, count as usize)?;
        for item in 0..count {
            above.push(item)?;
        }
        Ok(UnionFind { above })
    }

    /// The root of the tree of an item. On the way there each second item is hung higher, so that later ways are shorter.
    pub fn root(&mut self, item: u32) -> u32 {
        let mut item = item;
        for _step in 0..self.above.len() {
            let above = self.above(item);
            if above == item {
                break;
            }
            let higher = self.above(above);
            self.hang(item, higher);
            item = higher;
        }
        item
    }

    /// Puts an item below another.
    pub fn hang(&mut self, item: u32, above: u32) {
        let place = item as usize;
        if place < self.above.len() {
            self.above[place] = above;
        }
    }

    /// Two items hang together from now on.
    pub fn join(&mut self, one: u32, other: u32) {
        let above = self.root(one);
        let below = self.root(other);
        self.hang(below, above);
    }

    /// What is above an item. What is none counts as a root.
    fn above(&self, item: u32) -> u32 {
        match self.above.get(item as usize) {
            Some(above) => *above,
            None => item,
        }
    }
}
