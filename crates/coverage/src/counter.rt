ghost use Rattle.std.specs.Prelude.{◌≡◌, ◌<◌, ◌≤◌, ◌^◌, IfOk, length};
ghost use Rattle.macros.specs.Guards.{HasShape};
ghost use Rattle.and_or_tables.specs.Shape.{columns};
ghost use Rattle.coverage.specs.Counters.{IsNew, cells_kept, counted, ground_cells};

use crate::tally::Tally;
use and_or_tables::MaskTable;
use rsml_ground::GroundGuard;
use rsml_syntax::NoMemory;
use std::alloc::Global;

/// What is counted of a transition or of a case of a send, and its table, if it has one.
pub struct Counter {
    pub tally: Tally,
    pub masks: Option<MaskTable>,
}

impl Drop for Counter {
    fn drop(self) {
        let Self { tally: _, masks: _ } = self;
    }
}

/// The table of a guard, if it has one.
fn masks_of(alloc: Global, guard: &GroundGuard) -> Result<Option<MaskTable>, NoMemory>
    requires { HasShape guard.now }
    ensures { IfOk result (λ masks. cells_kept masks ≡ ground_cells guard.now) }
{
    match guard {
        GroundGuard::Always => Ok(None),
        GroundGuard::Table(table) => Ok(Some(MaskTable::build(alloc, table)?)),
    }
}

/// How many columns the table of a guard has. None for a guard `always`.
fn columns_of(guard: &GroundGuard) -> usize
    requires { HasShape guard.now }
    ensures is { result ≡ columns (ground_cells guard.now) }
    ensures few { result ≤ 32 }
{
    match guard {
        GroundGuard::Always => 0,
        GroundGuard::Table(table) => table.rows.as_slice()[0].cells.len(),
    }
}

impl Counter {
    /// One that has counted nothing yet.
    pub fn new(alloc: Global, guard: &GroundGuard) -> Result<Counter, NoMemory>
        requires { HasShape guard.now }
        ensures { IfOk result (λ c. IsNew (ground_cells guard.now) c) }
    {
        let masks = masks_of(alloc, guard)?;
        let tally = Tally::new(alloc, columns_of(guard))?;
        Ok(Counter { tally, masks })
    }

    /// Counts one round more, in which the truths of the rows of its table are these bits.
    pub fn add(&mut self, bits: u64)
        requires table { length self.old.tally.columns ≡ columns (cells_kept self.old.masks) }
        requires room { self.old.tally.count < 2 ^ 63 }
        ensures { self.new ≡ counted bits self.old }
    {
        self.tally.add(&self.masks, bits);
    }
}
