ghost use Rattle.std.specs.Prelude.{◌≡◌, ◌<◌, ◌≤◌, ◌^◌, ◌==◌, IfOk, count_by, length};
ghost use Rattle.and_or_tables.specs.Shape.{columns};
ghost use Rattle.coverage.specs.Counters.{cells_kept, none_yet, one_more};
ghost use Rattle.coverage.specs.Text.{zeros_in};

use and_or_tables::MaskTable;
use rsml_syntax::NoMemory;
use std::alloc::Global;
use std::marker::Model;

/// In how many rounds a transition or a case of a send reacted, and in how many of these each column of its table was true.
#[derive(Debug, Drop)]
pub struct Tally {
    count: u64,
    columns: Vec<u64>,
}

impl Model for Tally {
    ghost use Rattle.std.specs.Prelude.{◌≤◌, All, length};
    ghost use Rattle.coverage.specs.Coverage.{Covered};

    ghost Value = { Covered };

    ghost view = { λ t. record { count = t.count; columns = t.columns.items } };

    ghost invariant = { λ t. All (λ n. n ≤ t.count) t.columns.items × (length t.columns.items ≤ 32) };
}

/// How many counts are 0.
fn zeros(counts: &[u64]) -> u64
    ensures is { result ≡ count_by (λ n. n == 0) counts.now }
    ensures few { result ≤ length counts.now }
{
    let mut zeros = 0;
    for count in counts {
        zeros += u64::from(*count == 0);
    }
    zeros
}

impl Tally {
    /// Nothing is counted yet of a table of so many columns.
    pub(crate) fn new(alloc: Global, columns: usize) -> Result<Tally, NoMemory>
        requires { columns ≤ 32 }
        ensures { IfOk result (λ t. t ≡ none_yet columns) }
    {
        let columns = Vec::from_elem(alloc, 0, columns)?;
        Ok(Tally { count: 0, columns })
    }

    /// Counts one round more, in which the truths of the rows of the table, if there is one, are these bits.
    pub(crate) fn add(&mut self, table: &Option<MaskTable>, bits: u64)
        requires table { length self.old.columns ≡ columns (cells_kept table.now) }
        requires room { self.old.count < 2 ^ 63 }
        ensures { self.new ≡ one_more bits (cells_kept table.now) self.old }
    {
        self.count += 1;
        if let Some(masks) = table {
            masks.count_columns(bits, self.columns.as_mut_slice());
        }
    }

    /// In how many rounds it reacted.
    pub fn count(&self) -> u64
        ensures { result ≡ self.now.count }
    {
        self.count
    }

    /// In how many of these each column of its table was true. None for a guard `always`.
    pub fn columns(&self) -> &[u64]
        ensures { result.now ≡ self.now.columns }
    {
        let _ = self.count;
        self.columns.as_slice()
    }

    /// How many of its counts are 0.
    pub(crate) fn zeros(&self) -> u64
        ensures is { result ≡ zeros_in self.now }
        ensures few { result ≤ 33 }
    {
        u64::from(self.count == 0) + zeros(self.columns.as_slice())
    }
}
