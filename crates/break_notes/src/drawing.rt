//! The table of a claim, with the cells that fail where components have these children.
ghost use Rattle.state_tree.specs.Numbers.{AreChoices};

use ground_claims::{ClaimRow, StatePhrase};
use rsml_syntax::Cell;
use source_notes::{Notes, characters_in};
use state_tree::Tree;
use text_writer::Writer;

/// Whether what a row asks of states is so.
fn is_so(tree: &Tree<'_>, choices: &[u8], phrase: &StatePhrase) -> bool
    requires { AreChoices tree.now choices.now }
{
    let (nodes, decides) = match phrase {
        StatePhrase::Every(nodes) => (nodes, false),
        StatePhrase::Any(nodes) => (nodes, true),
    };
    for node in nodes.as_slice() {
        let is_active = *node < tree.nodes() && tree.active(choices, *node);
        if is_active == decides {
            return decides;
        }
    }
    !decides
}

/// Whether a cell of a row fails.
fn fails(tree: &Tree<'_>, choices: &[u8], row: &ClaimRow, cell: Cell) -> bool
    requires { AreChoices tree.now choices.now }
{
    match cell {
        Cell::T => !is_so(tree, choices, &row.phrase),
        Cell::F => is_so(tree, choices, &row.phrase),
        Cell::Dot => false,
    }
}

/// Whether some cell of a column fails.
fn column_fails(tree: &Tree<'_>, choices: &[u8], rows: &[ClaimRow], column: usize) -> bool
    requires { AreChoices tree.now choices.now }
{
    for row in rows {
        if let Some(cell) = row.cells.get(column)
            && fails(tree, choices, row, *cell)
        {
            return true;
        }
    }
    false
}

/// Whether a claim with these rows is false: each column fails.
pub fn is_false(tree: &Tree<'_>, choices: &[u8], rows: &[ClaimRow]) -> bool
    requires { AreChoices tree.now choices.now }
{
    let columns = match rows.first() {
        Some(row) => row.cells.len(),
        None => 0,
    };
    for column in 0..columns {
        if !column_fails(tree, choices, rows, column) {
            return false;
        }
    }
    true
}

/// How a cell is written.
fn letter(cell: Cell) -> &'static [u8] {
    match cell {
        Cell::T => b"T",
        Cell::F => b"F",
        Cell::Dot => b".",
    }
}

/// Tells a row with its phrase, in this width, and `!` behind each cell that fails.
fn tell_row(
    notes: &mut Notes<'_>,
    tree: &Tree<'_>,
    choices: &[u8],
    row: &ClaimRow,
    phrase: &[u8],
    width: usize,
)
    requires { AreChoices tree.now choices.now }
{
    let mut line = notes.line("    ");
    line.put(phrase);
    for _ in characters_in(phrase)..width {
        line.put(b" ");
    }
    line.put(b" |");
    let mut gap: &[u8] = b" ";
    for cell in row.cells.as_slice() {
        line.put(gap);
        line.put(letter(*cell));
        gap = b"  ";
        if fails(tree, choices, row, *cell) {
            line.put(b"!");
            gap = b" ";
        }
    }
    notes.keep(line);
}

/// Tells the rows of a claim, whose phrases are written so.
pub fn tell_rows(
    notes: &mut Notes<'_>,
    tree: &Tree<'_>,
    choices: &[u8],
    rows: &[ClaimRow],
    phrases: &[Vec<u8>],
)
    requires { AreChoices tree.now choices.now }
{
    let mut width: usize = 0;
    for phrase in phrases {
        width = width.max(characters_in(phrase.as_slice()));
    }
    for (row, phrase) in rows.iter().zip(phrases.iter()) {
        tell_row(notes, tree, choices, row, phrase.as_slice(), width);
    }
}
