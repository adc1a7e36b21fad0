//! Cells that meet in sums.
use crate::marks::Marks;
use crate::union_find::UnionFind;
use macros::Macros;
use rsml_base::NoMemory;
use rsml_ground::{Definition, GroundOperand, GroundPhrase, GroundSum};
use std::alloc::Global;

/// Cells, of which those hang together that meet in sums: in the two sums of a comparison, and in a value of a function that is
/// compared.
pub struct Clusters {
    cells: UnionFind,
    /// The cells in values of functions that are compared, and the roots of those that hang together with one.
    valued: Marks,
}

impl Drop for Clusters {
    fn drop(self) {
        let Self {
            cells: _,
            valued: _,
        } = self;
    }
}

impl Clusters {
    /// So many cells, as they meet in the phrases and definitions of a machine.
    pub fn new(alloc: Global, macros: &Macros<'_>, cells: u32) -> Result<Clusters, NoMemory> {
        let mut clusters = Clusters::apart(alloc, cells)?;
        clusters.join(alloc, macros)?;
        clusters.mark_roots(cells);
        Ok(clusters)
    }

    /// The same of two machines with the same cells.
    pub fn of_two(
        alloc: Global,
        one: &Macros<'_>,
        two: &Macros<'_>,
        cells: u32,
    ) -> Result<Clusters, NoMemory> {
        let mut clusters = Clusters::apart(alloc, cells)?;
        clusters.join(alloc, one)?;
        clusters.join(alloc, two)?;
        clusters.mark_roots(cells);
        Ok(clusters)
    }

    /// So many cells, each by itself.
    fn apart(alloc: Global, cells: u32) -> Result<Clusters, NoMemory> {
        Ok(Clusters {
            cells: UnionFind::new(alloc, cells)?,
            valued: Marks::new(alloc, cells as usize)?,
        })
    }

    /// The root of the cells that hang together with this one.
    pub fn root(&mut self, cell: u32) -> u32 {
        self.cells.root(cell)
    }

    /// Whether one of the cells of this root stands in a value of a function that is compared.
    pub fn is_valued(&self, root: u32) -> bool {
        self.valued.has(root)
    }

    /// Joins the cells that meet.
    fn join(&mut self, alloc: Global, macros: &Macros<'_>) -> Result<(), NoMemory> {
        let mut compared = Marks::new(alloc, macros.definitions())?;
        for number in 0..macros.phrases() {
            match macros.phrase(number) {
                GroundPhrase::Compare { left, right, .. } => {
                    let first = join_cells(&mut self.cells, None, left);
                    join_cells(&mut self.cells, first, right);
                }
                GroundPhrase::Function { function, .. } => {
                    if compared.mark(*function) {
                        self.join_values(macros, *function);
                    }
                }
                _ => {}
            }
        }
        Ok(())
    }

    /// Joins the cells of each value of a function, and marks them.
    fn join_values(&mut self, macros: &Macros<'_>, function: u32) {
        if function as usize >= macros.definitions() {
            return;
        }
        if let Definition::Function(cases) = macros.definition(function) {
            for case in cases.as_slice() {
                join_cells(&mut self.cells, None, &case.value);
                mark_cells(&mut self.valued, &case.value);
            }
        }
    }

    /// Marks the root of each cell that is marked. There are so many cells.
    fn mark_roots(&mut self, cells: u32) {
        for cell in 0..cells {
            if self.valued.has(cell) {
                self.valued.mark(self.cells.root(cell));
            }
        }
    }
}

/// The cells of a sum hang together, and with one that was met before. Answers the first of all these.
fn join_cells(cells: &mut UnionFind, before: Option<u32>, sum: &GroundSum) -> Option<u32> {
    let mut first = before;
    for term in sum.terms.as_slice() {
        if let GroundOperand::Cell(cell) = term.operand {
            match first {
                Some(first) => cells.join(first, cell),
                None => first = Some(cell),
            }
        }
    }
    first
}

/// Marks the cells of a sum.
fn mark_cells(marks: &mut Marks, sum: &GroundSum) {
    for term in sum.terms.as_slice() {
        if let GroundOperand::Cell(cell) = term.operand {
            marks.mark(cell);
        }
    }
}
