ghost use Rattle.std.specs.Prelude.{◌≡◌, ◌+◌, ◌<◌, ◌++◌, [], ◌∷◌, List, ℤ, IfOk, OnOk, length, map};
ghost use Rattle.pair_counts.specs.Blocks.{list_at};
ghost use Rattle.rsml_limits.specs.comparisons.Shown.{shown_cell};
ghost use Rattle.rsml_limits.specs.thresholds.Pairs.{grid};
ghost use Rattle.rsml_limits.specs.thresholds.Tabled.{cell_at, table_pairs, AreWithin, Extends};

use crate::comparisons::InputCell;
use crate::places::number_of;
use indexmap::IndexSet;
use pair_counts::Block;
use rsml_syntax::NoMemory;

/// A block for each of these cells, with the list at a place.
pub fn put_blocks<'a>(
    cells: &mut IndexSet<InputCell<'a>>,
    blocks: &mut Vec<Block>,
    more: &[InputCell<'a>],
    list: u32,
) -> Result<(), NoMemory>
    requires { AreWithin (length cells.old.keys) (list + 1) blocks.old.items }
    ensures within { AreWithin (length cells.new.keys) (list + 1) blocks.new.items }
    ensures pairs { OnOk result ((lists : List (List ℤ)) →
        table_pairs (map shown_cell cells.new.keys) lists blocks.new.items
        ≡ table_pairs (map shown_cell cells.old.keys) lists blocks.old.items
        ++ grid (map shown_cell more.now) (list_at lists list)) }
{
    for cell in more {
        put_block(cells, blocks, *cell, list)?;
    }
    Ok(())
}

// A block for a cell.
fn put_block<'a>(
    cells: &mut IndexSet<InputCell<'a>>,
    blocks: &mut Vec<Block>,
    cell: InputCell<'a>,
    list: u32,
) -> Result<(), NoMemory>
    requires { AreWithin (length cells.old.keys) (list + 1) blocks.old.items }
    ensures within { AreWithin (length cells.new.keys) (list + 1) blocks.new.items }
    ensures pairs { OnOk result ((lists : List (List ℤ)) →
        table_pairs (map shown_cell cells.new.keys) lists blocks.new.items
        ≡ table_pairs (map shown_cell cells.old.keys) lists blocks.old.items
        ++ grid (shown_cell cell.entry ∷ []) (list_at lists list)) }
{
    let fixed = place_of(cells, cell)?;
    blocks.push(Block { fixed, list })?;
    Ok(())
}

// The place of a cell, which goes last where it is not yet there.
fn place_of<'a>(cells: &mut IndexSet<InputCell<'a>>, cell: InputCell<'a>) -> Result<u32, NoMemory>
    ensures kept { Extends cells.old.keys cells.new.keys }
    ensures within { IfOk result (λ place. place < length cells.new.keys) }
    ensures cell { IfOk result (λ place.
        cell_at (map shown_cell cells.new.keys) place ≡ shown_cell cell.entry) }
{
    let (place, _) = cells.insert_full(cell)?;
    number_of(place)
}
