//! Between which numbers the cells of worlds are.
ghost use Rattle.std.specs.Prelude.{◌≡◌, ◌<◌, ◌≤◌, ◌+ℤ◌, IfOk, length, pos};
ghost use Rattle.rsml_meaning.specs.Cells.{cells};
ghost use Rattle.spelled_numbers.specs.Sums.{total_weight};
ghost use Rattle.phrase_diagrams.specs.Signs.{IsWithin};
ghost use Rattle.settled_worlds.specs.Conflicts.{HoldWorlds, IsRangeOf};

use crate::parts::cell_bits;
use keyed_levels::{KeyedLevels, keyed_laws};
use linear_conflicts::Range;
use rsml_base::NoMemory;
use spelled_numbers::Weighted;
use std::alloc::Global;

/// The range of each cell.
#[tactic(auto, using(crate::proofs::RangeLemmas::none_hold))]
pub(crate) fn ranges(alloc: Global, levels: &KeyedLevels<'_, '_>) -> Result<Vec<Range>, NoMemory>
    ensures { IfOk result (λ ranges. HoldWorlds levels.now ranges.items) }
{
    let mut ranges = Vec::new(alloc);
    for cell in 0..levels.layout().cells() {
        ranges.push(range(levels, cell))?;
    }
    Ok(ranges)
}

/// The range of a cell: its least number, and how far the weights of all its levels are above that.
fn range(levels: &KeyedLevels<'_, '_>, cell: u32) -> Range
    requires { cell < length (cells levels.now.base.spec) }
    ensures { IsRangeOf levels.now cell result }
{
    keyed_laws();
    let _ = levels.keys();
    let layout = levels.layout();
    layout.law();
    let low = layout.low(cell);
    let above = weight(cell_bits(levels, cell));
    range_from(low, above)
}

/// The range from a number on that goes so far.
fn range_from(low: i64, above: i64) -> Range
    requires low { IsWithin 1000000000 low }
    requires above { IsWithin 2000000000 above }
    ensures low { result.low ≡ low }
    ensures high { result.high ≡ low +ℤ above }
{
    Range {
        low,
        high: low + above,
    }
}

/// The sum of all weights.
fn weight(bits: &[Weighted]) -> i64
    requires { total_weight bits.now ≤ 2000000000 }
    ensures { result ≡ pos (total_weight bits.now) }
{
    let mut total = 0;
    for bit in bits {
        total += bit.weight;
    }
    total as i64
}
