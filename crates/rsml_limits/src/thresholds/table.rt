ghost use Rattle.std.specs.Prelude.{◌≡◌, ◌++◌, [], IfOk, OnOk, length, map, filter};
ghost use Rattle.rsml_syntax.specs.limits.Limits.{distinct, shown};
ghost use Rattle.rsml_syntax.specs.limits.Thresholds.{same_threshold};
ghost use Rattle.rsml_limits.specs.comparisons.Shown.{shown_cell};
ghost use Rattle.rsml_limits.specs.thresholds.Pairs.{grid, has_inner};

use crate::comparisons::InputCell;
use crate::places::number_of;
use crate::thresholds::blocks::put_blocks;
use crate::thresholds::ranges::ranges_of;
use indexmap::IndexSet;
use pair_counts::{Block, count_entries};
use rsml_names::Globals;
use rsml_syntax::NoMemory;
use std::alloc::Global;
use std::marker::Model;

/// Cells with numbers. Cells that have the same numbers share a list of them.
pub struct Table<'a> {
    cells: IndexSet<InputCell<'a>>,
    lists: Vec<Vec<i128>>,
    blocks: Vec<Block>,
}

impl Drop for Table<'_> {
    fn drop(self) {
        let Self {
            cells: _,
            lists: _,
            blocks: _,
        } = self;
    }
}

impl<'a> Model for Table<'a> {
    ghost use Rattle.std.specs.Prelude.{List, length, map};
    ghost use Rattle.rsml_syntax.specs.limits.Thresholds.{Threshold};
    ghost use Rattle.rsml_limits.specs.comparisons.Shown.{shown_cell};
    ghost use Rattle.rsml_limits.specs.thresholds.Tabled.{table_pairs, AreWithin};

    ghost Value = { List Threshold };

    ghost view = { λ t. table_pairs (map shown_cell t.cells.keys) (map (λ l. l.items) t.lists.items) t.blocks.items };

    ghost invariant = { λ t. AreWithin (length t.cells.keys) (length t.lists.items) t.blocks.items };
}

impl<'a> Table<'a> {
    /// Nothing yet.
    pub fn new(alloc: Global) -> Table<'a>
        ensures { result ≡ [] }
    {
        Table {
            cells: IndexSet::new(alloc),
            lists: Vec::new(alloc),
            blocks: Vec::new(alloc),
        }
    }

    /// Each of these cells, with each of these numbers.
    pub fn put(
        &mut self,
        cells: &IndexSet<InputCell<'a>>,
        numbers: Vec<i128>,
    ) -> Result<(), NoMemory>
        ensures { OnOk result (self.new
            ≡ self.old ++ grid (map shown_cell cells.now.keys) numbers.items) }
    {
        if cells.is_empty() || numbers.is_empty() {
            return Ok(());
        }
        let list = number_of(self.lists.len())?;
        self.lists.push(numbers)?;
        put_blocks(&mut self.cells, &mut self.blocks, cells.as_slice(), list)
    }

    /// How many thresholds there are: a cell with an inner number; stops at the greatest u64.
    pub fn count(&self, alloc: Global, globals: &Globals<'_>) -> Result<u64, NoMemory>
        ensures { IfOk result (λ count. count ≡ shown (length (distinct same_threshold
            (filter (has_inner globals.now) self.now)))) }
    {
        let ranges = ranges_of(alloc, globals, self.cells.as_slice())?;
        count_entries(
            alloc,
            self.lists.as_slice(),
            ranges.as_slice(),
            self.blocks.as_slice(),
        )
    }
}
