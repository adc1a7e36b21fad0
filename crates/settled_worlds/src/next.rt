//! The choice of the next cell.
ghost use Rattle.std.specs.Prelude.{◌≡◌, ◌<◌, ◌≤◌, false, IfOk, IfSome, OnOk, length};
ghost use Rattle.rsml_meaning.specs.Cells.{cells};
ghost use Rattle.rsml_meaning.specs.Cells as spec;
ghost use Rattle.settled_worlds.specs.Steps as steps;

use crate::parts::cell_bits;
use crate::reading::cells_of;
use crate::striking::is_used;
use keyed_levels::KeyedLevels;
use rsml_base::NoMemory;
use std::alloc::Global;

/// The cell for which the cells of the keys that are left and read it and those that stand in the function already are fewest: the
/// last of several. Some such key reads it, or it stands in the function and none does. It is not the one that is kept. None where no
/// key that is left reads another.
pub(crate) fn next_cell(
    alloc: Global,
    levels: &KeyedLevels<'_, '_>,
    left: &[bool],
    used: &[bool],
    kept: Option<u32>,
) -> Result<Option<u32>, NoMemory>
    requires { length left.now ≡ length levels.now.keyed }
    ensures { IfOk result (λ next. IfSome next (λ cell. (cell < length (cells levels.now.base.spec)) × (steps.is_kept kept cell ≡ false))) }
{
    let cells = levels.layout().cells();
    let beside = beside(alloc, levels, left, cells)?;
    if !some_is_read(beside.as_slice(), kept, cells) {
        return Ok(None);
    }
    let standing = standing(alloc, levels, used, cells)?;
    fewest(alloc, beside.as_slice(), standing.as_slice(), kept, cells)
}

/// For each of the cells those that the keys name that are left and read it, as often as they do.
fn beside(
    alloc: Global,
    levels: &KeyedLevels<'_, '_>,
    left: &[bool],
    cells: u32,
) -> Result<Vec<Vec<u32>>, NoMemory>
    requires { length left.now ≡ length levels.now.keyed }
    ensures { IfOk result (λ beside. length beside.items ≡ cells) }
{
    let mut beside = empty(alloc, cells)?;
    for place in 0..levels.keys().len() {
        if left[place] {
            push_each(&mut beside, cells_of(alloc, levels, place)?.as_slice())?;
        }
    }
    Ok(beside)
}

/// So many empty lists.
fn empty(alloc: Global, count: u32) -> Result<Vec<Vec<u32>>, NoMemory>
    ensures { IfOk result (λ lists. length lists.items ≡ count) }
{
    let mut lists = Vec::new(alloc);
    for _place in 0..count {
        lists.push(Vec::new(alloc))?;
    }
    Ok(lists)
}

/// Puts these cells at the end of the list of each of them.
fn push_each(beside: &mut Vec<Vec<u32>>, named: &[u32]) -> Result<(), NoMemory>
    ensures { OnOk result (length beside.new.items ≡ length beside.old.items) }
{
    for cell in named {
        push_beside(beside, *cell as usize, named)?;
    }
    Ok(())
}

/// Puts cells at the end of the list of one.
fn push_beside(beside: &mut Vec<Vec<u32>>, cell: usize, named: &[u32]) -> Result<(), NoMemory>
    ensures { OnOk result (length beside.new.items ≡ length beside.old.items) }
{
    if cell < beside.len() {
        beside[cell].extend_from_slice(named)?;
    }
    Ok(())
}

/// Whether some cell but the one that is kept has others beside it.
fn some_is_read(beside: &[Vec<u32>], kept: Option<u32>, cells: u32) -> bool
    requires { length beside.now ≡ cells }
{
    for cell in 0..cells {
        if !is_kept(kept, cell) && !beside[cell as usize].is_empty() {
            return true;
        }
    }
    false
}

/// For each of the cells whether the function may depend on one of its levels.
fn standing(
    alloc: Global,
    levels: &KeyedLevels<'_, '_>,
    used: &[bool],
    cells: u32,
) -> Result<Vec<bool>, NoMemory>
    requires { cells ≡ length (spec.cells levels.now.base.spec) }
{
    let mut standing = Vec::new(alloc);
    for cell in 0..cells {
        standing.push(stands(levels, used, cell))?;
    }
    Ok(standing)
}

fn stands(levels: &KeyedLevels<'_, '_>, used: &[bool], cell: u32) -> bool
    requires { cell < length (cells levels.now.base.spec) }
{
    cell_bits(levels, cell)
        .iter()
        .any(|bit| is_used(used, bit.level))
}

/// The cell with the fewest others beside it that do not stand in the function: the last of several, and not the one that is kept. A
/// cell with none beside it stands in the function.
fn fewest(
    alloc: Global,
    beside: &[Vec<u32>],
    standing: &[bool],
    kept: Option<u32>,
    cells: u32,
) -> Result<Option<u32>, NoMemory>
    requires { length beside.now ≡ cells }
    ensures { IfOk result (λ best. IfSome best (λ cell. (cell < cells) × (steps.is_kept kept cell ≡ false))) }
{
    let mut counted = vec![in alloc; None; cells as usize]?;
    let mut best = None;
    let mut least = usize::MAX;
    for cell in 0..cells {
        let others = beside[cell as usize].as_slice();
        let count = fresh(others, standing, &mut counted, cell);
        if !is_kept(kept, cell) && may_go(others, standing, cell) && count <= least {
            best = Some(cell);
            least = count;
        }
    }
    Ok(best)
}

/// Whether a cell has others beside it, or stands in the function.
fn may_go(others: &[u32], standing: &[bool], cell: u32) -> bool {
    !others.is_empty() || standing.get(cell as usize).copied().unwrap_or(false)
}

/// Whether a cell is the one that is kept.
fn is_kept(kept: Option<u32>, cell: u32) -> bool
    ensures { result ≡ steps.is_kept kept cell }
{
    match kept {
        Some(kept) => kept == cell,
        None => false,
    }
}

/// How many different ones of these cells do not stand in the function.
fn fresh(others: &[u32], standing: &[bool], counted: &mut Vec<Option<u32>>, cell: u32) -> usize {
    let mut count = 0;
    for other in others {
        if is_fresh(*other as usize, standing, counted, cell) {
            count += 1;
        }
    }
    count
}

/// Whether a cell does not stand in the function, and has not been counted for this one before.
fn is_fresh(other: usize, standing: &[bool], counted: &mut Vec<Option<u32>>, cell: u32) -> bool {
    if other >= standing.len() || standing[other] || other >= counted.len() {
        return false;
    }
    let before = counted[other];
    counted[other] = Some(cell);
    before != Some(cell)
}
