ghost use Rattle.std.specs.Prelude.{◌≡◌, ◌<◌, ◌++◌, ℕ, IfOk, OnOk, length, map, nat_eq};
ghost use Rattle.pair_counts.specs.Grouped.{places_of, places_at};
ghost use Rattle.pair_counts.specs.Blocks.{list_at};
ghost use Rattle.pair_counts.specs.Sets.{is_among};

use crate::blocks::Block;
use crate::groups::Groups;
use rsml_base::NoMemory;
use std::alloc::Global;

/// The places of the lists that have each number.
pub fn lists_with(alloc: Global, lists: &[Vec<u32>]) -> Result<Groups, NoMemory>
    ensures { IfOk result (λ groups. (number place : ℕ) →
        is_among nat_eq (places_at groups number) place
        ≡ is_among nat_eq (list_at (map (λ l. l.items) lists.now) place) number) }
{
    let blocks = blocks_of(alloc, lists)?;
    Groups::new(alloc, blocks.as_slice())
}

/// The fixed numbers of the blocks that name each of so many lists.
pub fn named_by(alloc: Global, blocks: &[Block], count: usize) -> Result<Vec<Vec<u32>>, NoMemory>
    ensures { IfOk result (λ lists. (place number : ℕ) → place < count →
        is_among nat_eq (list_at (map (λ l. l.items) lists.items) place) number
        ≡ is_among nat_eq (places_of blocks.now number) place) }
{
    let swapped = swapped(alloc, blocks)?;
    let groups = Groups::new(alloc, swapped.as_slice())?;
    lists_of(alloc, &groups, count)
}

// A block for each number of each list, from the number to the list.
fn blocks_of(alloc: Global, lists: &[Vec<u32>]) -> Result<Vec<Block>, NoMemory>
    ensures { IfOk result (λ blocks. (number place : ℕ) →
        is_among nat_eq (places_of blocks.items number) place
        ≡ is_among nat_eq (list_at (map (λ l. l.items) lists.now) place) number) }
{
    let mut blocks = Vec::new(alloc);
    for (place, list) in lists.iter().enumerate() {
        put_list(&mut blocks, list, number_of(place)?)?;
    }
    Ok(blocks)
}

// Puts a block last for each number of a list.
fn put_list(blocks: &mut Vec<Block>, list: &[u32], place: u32) -> Result<(), NoMemory>
    ensures { OnOk result (blocks.new.items
        ≡ blocks.old.items ++ map (λ n. record { fixed = n; list = place }) list.now) }
{
    for number in list {
        blocks.push(Block {
            fixed: *number,
            list: place,
        })?;
    }
    Ok(())
}

// Blocks with their two numbers swapped.
fn swapped(alloc: Global, blocks: &[Block]) -> Result<Vec<Block>, NoMemory>
    ensures { IfOk result (λ swapped. swapped.items
        ≡ map (λ l. record { fixed = l.list; list = l.fixed }) blocks.now) }
{
    let mut swapped = Vec::new(alloc);
    for block in blocks {
        swapped.push(Block {
            fixed: block.list,
            list: block.fixed,
        })?;
    }
    Ok(swapped)
}

// The places of each of so many numbers.
fn lists_of(alloc: Global, groups: &Groups, count: usize) -> Result<Vec<Vec<u32>>, NoMemory>
    ensures { IfOk result (λ lists. (place : ℕ) → place < count →
        list_at (map (λ l. l.items) lists.items) place ≡ places_at groups.now place) }
{
    let mut lists = Vec::new(alloc);
    for place in 0..count {
        lists.push(Vec::from_slice(alloc, places(groups, number_of(place)?))?)?;
    }
    Ok(lists)
}

/// The places of a number, none where it is not there.
pub fn places(groups: &Groups, number: u32) -> &[u32]
    ensures { result.now ≡ places_at groups.now number }
{
    groups.get(number).unwrap_or(&[])
}

// A place as a number: more than 2^32 lists have no room in memory.
fn number_of(place: usize) -> Result<u32, NoMemory>
    ensures { IfOk result (λ number. number ≡ place) }
{
    match u32::try_from(place) {
        Ok(number) => Ok(number),
        Err(_) => Err(NoMemory),
    }
}
