//! What has levels, by numbers: components, cells and comparisons.
use elaborate::Machine;
use rsml_base::NoMemory;

/// The numbers of parts. The components come first, then the cells, and then the comparisons: one number for each phrase, which is
/// that of a part where the phrase compares several cells and is the first of those like it.
#[derive(Clone, Copy)]
pub struct Parts<'p> {
    components: u32,
    cells: u32,
    first_comparison: u32,
    count: u32,
    alike: &'p [u32],
}

/// Of what a part is.
#[derive(Clone, Copy, Debug, PartialEq, Eq)]
pub enum PartKind {
    Component,
    Cell(u32),
    Comparison(u32),
}

impl<'p> Parts<'p> {
    /// The parts of a machine, with the first comparison that is like each phrase. NoMemory where a `u32` does not count them: memory
    /// would not hold so many.
    pub fn new(machine: &Machine<'_>, alike: &'p [u32]) -> Result<Parts<'p>, NoMemory> {
        Parts::with(machine, machine.macros().phrases(), alike)
    }

    /// The same, with so many numbers for comparisons.
    pub fn with(
        machine: &Machine<'_>,
        comparisons: u32,
        alike: &'p [u32],
    ) -> Result<Parts<'p>, NoMemory> {
        let components = machine.tree().components();
        let Ok(cells) = u32::try_from(machine.cells()) else {
            return Err(NoMemory);
        };
        let first_comparison = components.checked_add(cells).ok_or(NoMemory)?;
        let count = first_comparison.checked_add(comparisons).ok_or(NoMemory)?;
        Ok(Parts {
            components,
            cells,
            first_comparison,
            count,
            alike,
        })
    }

    /// How many numbers there are.
    pub fn count(&self) -> u32 {
        self.count
    }

    /// How many cells there are.
    pub fn cells(&self) -> u32 {
        self.cells
    }

    /// The first number that is that of a comparison. Those before it are components and cells.
    pub fn first_comparison(&self) -> u32 {
        self.first_comparison
    }

    /// The part of a cell. A number too great is that of no part.
    pub fn cell(&self, cell: u32) -> u32 {
        self.components.saturating_add(cell)
    }

    /// The part of the comparison that a phrase makes: that of the first one like it. A number too great is that of no part.
    pub fn comparison(&self, phrase: u32) -> u32 {
        let first = match self.alike.get(phrase as usize) {
            Some(first) => *first,
            None => phrase,
        };
        self.first_comparison.saturating_add(first)
    }

    /// Whether a phrase is the first of those like it.
    pub fn is_first(&self, phrase: u32) -> bool {
        self.comparison(phrase) == self.first_comparison.saturating_add(phrase)
    }

    /// Of what a part is.
    pub fn kind(&self, part: u32) -> PartKind {
        if let Some(phrase) = part.checked_sub(self.first_comparison) {
            return PartKind::Comparison(phrase);
        }
        match part.checked_sub(self.components) {
            Some(cell) => PartKind::Cell(cell),
            None => PartKind::Component,
        }
    }
}
