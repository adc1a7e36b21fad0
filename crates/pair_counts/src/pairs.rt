ghost use Rattle.std.specs.Prelude.{◌≡◌, IfOk, OnOk, length, map, flat_map, filter, nat_eq, not};
ghost use Rattle.std.specs.List.{IsDistinct};
ghost use Rattle.rsml_base.specs.Counting.{adds, distinct, shown};
ghost use Rattle.pair_counts.specs.Grouped.{places_at};
ghost use Rattle.pair_counts.specs.Blocks.{column, row, pairs, same_pair, is_in_rows};
ghost use Rattle.pair_counts.specs.Sets.{is_among, joined_at, IsWhole};

use crate::bits::Bits;
use crate::blocks::Block;
use crate::groups::Groups;
use crate::inverse::{lists_with, named_by, places};
use crate::sets::{Sets, numbers};
use rsml_base::NoMemory;
use std::alloc::Global;

/// How many pairs columns and rows have together; stops at the greatest u64. A column has each
/// number of its list and then its own, a row its own and then each of its list.
pub fn count_pairs(
    alloc: Global,
    lists: &[Vec<u32>],
    columns: &[Block],
    rows: &[Block],
) -> Result<u64, NoMemory>
    ensures { IfOk result (λ count. count ≡ shown (length (distinct same_pair
        (pairs (map (λ l. l.items) lists.now) columns.now rows.now)))) }
{
    let numbers = numbers(alloc, lists)?;
    let sets = Sets::new(alloc, &numbers, lists)?;
    let of_rows = count_rows(alloc, &sets, rows)?;
    let of_columns = count_columns(alloc, &sets, columns, rows)?;
    Ok(of_rows.saturating_add(of_columns))
}

// How many pairs rows have.
fn count_rows(alloc: Global, sets: &Sets<'_, u32>, rows: &[Block]) -> Result<u64, NoMemory>
    requires { IsWhole nat_eq sets.now }
    ensures { IfOk result (λ count. count
        ≡ shown (length (distinct same_pair (flat_map (row sets.now.lists) rows.now)))) }
{
    count_row_groups(alloc, sets, &Groups::new(alloc, rows)?)
}

fn count_row_groups(alloc: Global, sets: &Sets<'_, u32>, rows: &Groups) -> Result<u64, NoMemory>
    requires { IsWhole nat_eq sets.now }
    ensures count { IfOk result (λ count. count
        ≡ shown (adds (λ g. length (distinct nat_eq (joined_at sets.now g.1))) rows.now)) }
    ensures differ { OnOk result (IsDistinct nat_eq (map (λ g. g.0) rows.now)) }
{
    let mut sum = 0u64;
    for (_, places) in rows.iter() {
        sum = sum.saturating_add(count(alloc, sets, places)?);
    }
    Ok(sum)
}

// How many pairs columns have that no row has: of a fixed number, these are with the fixed
// numbers of the rows that name a list with it.
fn count_columns(
    alloc: Global,
    sets: &Sets<'_, u32>,
    columns: &[Block],
    rows: &[Block],
) -> Result<u64, NoMemory>
    requires { IsWhole nat_eq sets.now }
    ensures { IfOk result (λ count. count ≡ shown (length (distinct same_pair
        (filter (λ p. not (is_in_rows sets.now.lists rows.now p))
        (flat_map (column sets.now.lists) columns.now))))) }
{
    let numbers = named_by(alloc, rows, sets.lists().len())?;
    let named_by = sets.of_others(alloc, numbers.as_slice())?;
    let lists_with = lists_with(alloc, sets.lists())?;
    count_column_groups(
        alloc,
        sets,
        &Groups::new(alloc, columns)?,
        &named_by,
        &lists_with,
    )
}

fn count_column_groups(
    alloc: Global,
    sets: &Sets<'_, u32>,
    columns: &Groups,
    named_by: &Sets<'_, u32>,
    lists_with: &Groups,
) -> Result<u64, NoMemory>
    requires whole { IsWhole nat_eq sets.now }
    requires same { named_by.now.numbers ≡ sets.now.numbers }
    ensures count { IfOk result (λ count. count ≡ shown (adds (λ g. length (distinct nat_eq
        (filter (λ n. not (is_among nat_eq
        (joined_at named_by.now (places_at lists_with.now g.0)) n))
        (joined_at sets.now g.1)))) columns.now)) }
    ensures differ { OnOk result (IsDistinct nat_eq (map (λ g. g.0) columns.now)) }
{
    let mut sum = 0u64;
    for (number, own) in columns.iter() {
        let others = places(lists_with, *number);
        sum = sum.saturating_add(count_without(alloc, sets, own, named_by, others)?);
    }
    Ok(sum)
}

// How many numbers the lists at some places have together.
fn count(alloc: Global, sets: &Sets<'_, u32>, places: &[u32]) -> Result<u64, NoMemory>
    requires { IsWhole nat_eq sets.now }
    ensures { IfOk result (λ count. count
        ≡ shown (length (distinct nat_eq (joined_at sets.now places.now)))) }
{
    let numbers = sets.union(alloc, places)?;
    Ok(numbers.count_without(&Bits::new(alloc)))
}

// How many numbers the lists at some places have together that other lists do not have.
fn count_without(
    alloc: Global,
    sets: &Sets<'_, u32>,
    places: &[u32],
    other_sets: &Sets<'_, u32>,
    other_places: &[u32],
) -> Result<u64, NoMemory>
    requires whole { IsWhole nat_eq sets.now }
    requires same { other_sets.now.numbers ≡ sets.now.numbers }
    ensures { IfOk result (λ count. count ≡ shown (length (distinct nat_eq
        (filter (λ n. not (is_among nat_eq (joined_at other_sets.now other_places.now) n))
        (joined_at sets.now places.now))))) }
{
    let own = sets.union(alloc, places)?;
    let others = other_sets.union(alloc, other_places)?;
    Ok(own.count_without(&others))
}
