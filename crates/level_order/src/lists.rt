//! Many lists of parts in one.
use rsml_base::NoMemory;
use std::alloc::Global;

/// Where a list stands.
#[derive(Clone, Copy)]
struct Span {
    start: usize,
    end: usize,
}

/// Lists of parts, one behind another. Each has its place as its number.
pub struct Lists {
    parts: Vec<u32>,
    spans: Vec<Span>,
}

impl Drop for Lists {
    fn drop(self) {
        let Self { parts: _, spans: _ } = self;
    }
}

impl Lists {
    /// No lists.
    pub fn new(alloc: Global) -> Lists {
        Lists {
            parts: Vec::new(alloc),
            spans: Vec::new(alloc),
        }
    }

    /// How many lists there are.
    pub fn len(&self) -> usize {
        self.spans.len()
    }

    /// Adds a list, and answers its number.
    pub fn add(&mut self, list: &[u32]) -> Result<usize, NoMemory> {
        let number = self.spans.len();
        let start = self.parts.len();
        self.parts.extend_from_slice(list)?;
        let end = self.parts.len();
        self.spans.push(Span { start, end })?;
        Ok(number)
    }

    /// The list of a number, or no parts where there is no such list.
    pub fn get(&self, number: usize) -> &[u32] {
        let Some(span) = self.spans.get(number) else {
            return &[];
        };
        match self.parts.get(span.start..span.end) {
            Some(list) => list,
            None => &[],
        }
    }
}
