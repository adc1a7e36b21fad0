//! Sequences of parts, which are put one behind another.
use crate::marks::Marks;
use crate::union_find::UnionFind;
use rsml_base::NoMemory;
use std::alloc::Global;

/// Sequences of parts: each part stands in one. At first each is a sequence of its own. To put one behind another takes nearly
/// constant time, however long they are: only the last part of the one and the first of the other are looked at.
pub struct Sequences {
    /// How many parts there are.
    count: u32,
    /// The root of a part is the first of its sequence.
    firsts: UnionFind,
    /// For the first part of each sequence the last one.
    last: Vec<u32>,
    /// For each part the one behind it.
    next: Vec<Option<u32>>,
    /// The parts that stand in supports.
    read: Marks,
}

impl Drop for Sequences {
    fn drop(self) {
        let Self {
            count: _,
            firsts: _,
            last: _,
            next: _,
            read: _,
        } = self;
    }
}

impl Sequences {
    /// So many parts, each by itself.
    pub fn new(alloc: Global, count: u32) -> Result<Sequences, NoMemory> {
        let mut last = Vec::with_capacity(alloc, count as usize)?;
        for part in 0..count {
            last.push(part)?;
        }
        Ok(Sequences {
            count,
            firsts: UnionFind::new(alloc, count)?,
            last,
            next: vec![in alloc; None; count as usize]?,
            read: Marks::new(alloc, count as usize)?,
        })
    }

    /// Of each two neighbours in a support the sequence of the second is put behind that of the first, where they differ.
    pub fn join(&mut self, support: &[u32]) {
        let mut before = None;
        for part in support {
            self.read.mark(*part);
            if let Some(before) = before {
                self.append(before, *part);
            }
            before = Some(*part);
        }
    }

    /// Whether a part stands in a support that was joined.
    pub fn is_read(&self, part: u32) -> bool {
        self.read.has(part)
    }

    /// The parts that stand in supports, sequence by sequence: those of the least parts first.
    pub fn in_order(&mut self, alloc: Global) -> Result<Vec<u32>, NoMemory> {
        let mut order = Vec::new(alloc);
        let mut written = Marks::new(alloc, self.count as usize)?;
        for part in 0..self.count {
            if self.is_read(part) {
                let first = self.firsts.root(part);
                if written.mark(first) {
                    self.write(first, &mut order)?;
                }
            }
        }
        Ok(order)
    }

    /// Writes the sequence that begins with this part.
    fn write(&self, first: u32, order: &mut Vec<u32>) -> Result<(), NoMemory> {
        let mut part = first;
        for _step in 0..self.count {
            order.push(part)?;
            match self.next(part) {
                Some(next) => part = next,
                None => break,
            }
        }
        Ok(())
    }

    /// Puts the sequence of the other part behind that of the one, where they differ.
    fn append(&mut self, one: u32, other: u32) {
        let first = self.firsts.root(one);
        let second = self.firsts.root(other);
        if first != second {
            self.set_next(self.last(first), second);
            self.set_last(first, self.last(second));
            self.firsts.hang(second, first);
        }
    }

    /// The last part of the sequence that begins with this one.
    fn last(&self, first: u32) -> u32 {
        match self.last.get(first as usize) {
            Some(last) => *last,
            None => first,
        }
    }

    fn set_last(&mut self, first: u32, last: u32) {
        let place = first as usize;
        if place < self.last.len() {
            self.last[place] = last;
        }
    }

    /// The part behind this one.
    fn next(&self, part: u32) -> Option<u32> {
        match self.next.get(part as usize) {
            Some(next) => *next,
            None => None,
        }
    }

    fn set_next(&mut self, part: u32, next: u32) {
        let place = part as usize;
        if place < self.next.len() {
            self.next[place] = Some(next);
        }
    }
}
