ghost use Rattle.std.specs.Prelude.{◌≡◌, IfOk, OnOk, length, map, flat_map, filter, nat_eq};
ghost use Rattle.std.specs.List.{IsDistinct};
ghost use Rattle.std.specs.Ordering.{int_eq};
ghost use Rattle.rsml_base.specs.Counting.{adds, distinct, shown};
ghost use Rattle.pair_counts.specs.Blocks.{entries, same_entry, is_within};
ghost use Rattle.pair_counts.specs.Sets.{joined_at, IsWhole};

use crate::blocks::{Block, Range};
use crate::groups::Groups;
use crate::outside::Outside;
use crate::sets::{Sets, numbers};
use rsml_base::NoMemory;
use std::alloc::Global;

/// How many entries blocks have together, each the number of a block with one of its list that is
/// within the range at the place of that block's number; stops at the greatest u64.
pub fn count_entries(
    alloc: Global,
    lists: &[Vec<i128>],
    ranges: &[Range],
    blocks: &[Block],
) -> Result<u64, NoMemory>
    ensures { IfOk result (λ count. count ≡ shown (length (distinct same_entry
        (flat_map (entries ranges.now (map (λ l. l.items) lists.now)) blocks.now)))) }
{
    let numbers = numbers(alloc, lists)?;
    let sets = Sets::new(alloc, &numbers, lists)?;
    count_blocks(alloc, ranges, &sets, blocks)
}

// How many entries blocks have.
fn count_blocks(
    alloc: Global,
    ranges: &[Range],
    sets: &Sets<'_, i128>,
    blocks: &[Block],
) -> Result<u64, NoMemory>
    requires { IsWhole int_eq sets.now }
    ensures { IfOk result (λ count. count ≡ shown (length (distinct same_entry
        (flat_map (entries ranges.now sets.now.lists) blocks.now)))) }
{
    let groups = Groups::new(alloc, blocks)?;
    count_groups(
        alloc,
        ranges,
        sets,
        &mut Outside::new(alloc, sets.numbers()),
        &groups,
    )
}

// How many entries groups of blocks have.
fn count_groups(
    alloc: Global,
    ranges: &[Range],
    sets: &Sets<'_, i128>,
    outside: &mut Outside<'_>,
    groups: &Groups,
) -> Result<u64, NoMemory>
    requires whole { IsWhole int_eq sets.now }
    requires same { outside.old ≡ sets.now.numbers }
    ensures count { IfOk result (λ count. count ≡ shown (adds (λ g. length (distinct int_eq
        (filter (is_within ranges.now g.0) (joined_at sets.now g.1)))) groups.now)) }
    ensures differ { OnOk result (IsDistinct nat_eq (map (λ g. g.0) groups.now)) }
{
    let mut sum = 0u64;
    for (fixed, places) in groups.iter() {
        sum = sum.saturating_add(count_group(alloc, ranges, sets, outside, *fixed, places)?);
    }
    Ok(sum)
}

// How many entries a number has with the lists at these places.
fn count_group(
    alloc: Global,
    ranges: &[Range],
    sets: &Sets<'_, i128>,
    outside: &mut Outside<'_>,
    fixed: u32,
    places: &[u32],
) -> Result<u64, NoMemory>
    requires whole { IsWhole int_eq sets.now }
    requires same { outside.old ≡ sets.now.numbers }
    ensures count { IfOk result (λ count. count ≡ shown (length (distinct int_eq
        (filter (is_within ranges.now fixed) (joined_at sets.now places.now))))) }
    ensures same { outside.new ≡ outside.old }
{
    match ranges.get(fixed as usize) {
        Some(range) => {
            let own = sets.union(alloc, places)?;
            outside.count_within(alloc, &own, *range)
        }
        None => Ok(0),
    }
}
