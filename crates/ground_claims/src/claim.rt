ghost use Rattle.std.specs.Prelude.{◌≡◌, ℕ, Bool, All, map, slice_index_or};
ghost use Rattle.rsml_syntax.specs.rules.Tables as tables;
ghost use Rattle.state_tree.specs.Numbers.{AreChoices};
ghost use Rattle.rsml_ground.specs.Truths.{is_active};
ghost use Rattle.ground_claims.specs.Truths.{phrase_truth, row_truth, claim_truth};
ghost use Rattle.ground_claims.specs.StandsFor.{AreStates, HasStates};

use crate::phrase::StatePhrase;
use rsml_syntax::{Cell, List, World};
use state_tree::Tree;

/// A row of a claim: what it asks of states, and one cell for each column.
pub struct ClaimRow {
    pub phrase: StatePhrase,
    pub cells: List<Cell>,
}

impl Drop for ClaimRow {
    fn drop(self) {
        let Self {
            phrase: _,
            cells: _,
        } = self;
    }
}

impl ClaimRow {
    /// The cell in a column, a dot where there is none.
    fn cell(&self, column: usize) -> Cell
        ensures { result ≡ slice_index_or self.now.cells column Cell.Dot }
    {
        match self.cells.get(column) {
            Some(cell) => *cell,
            None => Cell::Dot,
        }
    }

    /// Whether the phrase is as the cell in a column wants it.
    fn is_allowed(&self, tree: &Tree<'_>, world: &World, column: usize) -> bool
        requires choices { AreChoices tree.now world.now.choices }
        requires there { AreStates tree.now self.now.phrase }
        ensures { result ≡ tables.allows (slice_index_or self.now.cells column Cell.Dot) (phrase_truth (is_active tree.now world.now) self.now.phrase) }
    {
        match self.cell(column) {
            Cell::T => self.phrase.truth(tree, world),
            Cell::F => !self.phrase.truth(tree, world),
            Cell::Dot => true,
        }
    }
}

/// A claim over numbers of states: an AND/OR table.
#[derive(Drop)]
pub struct GroundClaim {
    pub rows: List<ClaimRow>,
}

impl GroundClaim {
    /// Whether it is true in a world. It takes no memory.
    pub fn is_true(&self, tree: &Tree<'_>, world: &World) -> bool
        requires choices { AreChoices tree.now world.now.choices }
        requires there { HasStates tree.now self.now }
        ensures { result ≡ claim_truth (is_active tree.now world.now) self.now }
    {
        let rows = self.rows.as_slice();
        for column in 0..columns(rows) {
            if column_is_true(rows, tree, world, column) {
                return true;
            }
        }
        false
    }
}

/// How many columns there are: as many as the first row has cells.
fn columns(rows: &[ClaimRow]) -> usize
    ensures { (active : ℕ → Bool) → result ≡ tables.width (map (row_truth active) rows.now) }
{
    match rows.first() {
        Some(row) => row.cells.len(),
        None => 0,
    }
}

/// Whether each row is as its cell in a column wants it.
fn column_is_true(rows: &[ClaimRow], tree: &Tree<'_>, world: &World, column: usize) -> bool
    requires choices { AreChoices tree.now world.now.choices }
    requires there { All (λ row. AreStates tree.now row.phrase) rows.now }
    ensures { result ≡ tables.column (map (row_truth (is_active tree.now world.now)) rows.now) column }
{
    for row in rows {
        if !row.is_allowed(tree, world, column) {
            return false;
        }
    }
    true
}
