ghost use Rattle.std.specs.Prelude.{◌≡◌, IfOk, length, map, flat_map};
ghost use Rattle.rsml_syntax.specs.limits.Limits.{distinct, shown};
ghost use Rattle.rsml_syntax.specs.limits.Thresholds as spec;
ghost use Rattle.rsml_limits.specs.comparisons.Asks.{ask_comparisons};
ghost use Rattle.rsml_limits.specs.comparisons.Shown.{shown_ask};

use crate::comparisons::Ask;
use crate::keys::ask_blocks::AskBlocks;
use crate::keys::order::swaps;
use pair_counts::count_pairs;
use rsml_names::Globals;
use rsml_syntax::NoMemory;
use std::alloc::Global;

/// How many keys the comparisons have that were asked; stops at the greatest u64.
pub fn count_keys<'a>(
    alloc: Global,
    globals: &Globals<'a>,
    asks: &[Ask<'a>],
) -> Result<u64, NoMemory>
    ensures { IfOk result (λ count. count ≡ shown (length (distinct spec.same_key
        (flat_map spec.keys (flat_map (ask_comparisons globals.now) (map shown_ask asks.now)))))) }
{
    let mut blocks = AskBlocks::new(alloc, globals);
    let mut columns = Vec::new(alloc);
    let mut rows = Vec::new(alloc);
    for ask in asks {
        let block = blocks.block(alloc, ask)?;
        if swaps(ask.relation) {
            rows.push(block)?;
        } else {
            columns.push(block)?;
        }
    }
    count_pairs(alloc, blocks.lists(), columns.as_slice(), rows.as_slice())
}
