use and_or_tables::{GroundRow, Truths};
use guard_encode::Encoder;
use rsml_base::NoMemory;
use rsml_syntax::World;
use std::alloc::Global;
use table_notes::{Asked, TruthTable, world_of_column};

/// Columns of the table of an instance, from the first of them to the end.
#[derive(Clone, Copy)]
pub struct Columns<'m> {
    pub asked: Asked<'m>,
    pub first: usize,
    pub end: usize,
}

impl<'m> Columns<'m> {
    /// One column alone; of a transition with its source.
    pub fn one(rows: &'m [GroundRow], source: Option<u32>, column: usize) -> Columns<'m> {
        Columns {
            asked: Asked { rows, source },
            first: column,
            end: column.saturating_add(1),
        }
    }

    /// All columns; of no rows one that is always true.
    pub fn all(rows: &'m [GroundRow]) -> Columns<'m> {
        let source = None;
        Columns {
            asked: Asked { rows, source },
            first: 0,
            end: match rows.first() {
                Some(row) => row.cells.len(),
                None => 1,
            },
        }
    }

    /// Whether one of them is true where phrases have these truths.
    pub fn are_true(self, truths: &Truths) -> bool {
        let rows = self.asked.rows;
        for column in self.first..self.end {
            if (TruthTable { rows, truths }).holds(column) {
                return true;
            }
        }
        false
    }

    /// The first of them that is true in some world, and the least one.
    pub fn world(
        self,
        alloc: Global,
        encoder: &mut Encoder<'_, '_>,
    ) -> Result<Option<(usize, World)>, NoMemory> {
        for column in self.first..self.end {
            if let Some(world) = world_of_column(alloc, encoder, &self.asked, column)? {
                return Ok(Some((column, world)));
            }
        }
        Ok(None)
    }
}
