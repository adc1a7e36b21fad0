//! Levels for parts, given one after another. What a part lacks is how far its weights so far are below its greatest number.
ghost use Rattle.std.specs.Prelude.{◌≡◌, ◌+◌, ◌*◌, ◌/◌, ◌%◌, ◌^◌, ◌<◌, ◌≤◌, ℕ, [], ◌∷◌, ◌++◌, OnOk, length, slice_index_or, slice_set};
ghost use Rattle.world_levels.specs.Growing.{Grows};
ghost use Rattle.world_levels.specs.Order.{frees, free_count};

use crate::place::Place;
use rsml_base::NoMemory;
use spelled_numbers::Slot;

/// The greatest number of levels.
const MOST_LEVELS: usize = 0x8000_0000;

/// The greatest weight of a level in a cluster, 2^29: no part can have 2^30, since its number is at most 2,000,000,000.
const GREATEST_POWER: u64 = 0x2000_0000;

/// Adds a level. NoMemory also where there are 2^31 already.
fn add(slots: &mut Vec<Slot>, slot: Slot) -> Result<(), NoMemory>
    ensures last { OnOk result (slots.new.items ≡ slots.old.items ++ slot ∷ []) }
    ensures few { OnOk result (length slots.new.items ≤ 2 ^ 31) }
{
    if slots.len() >= MOST_LEVELS {
        return Err(NoMemory);
    }
    slots.push(slot)?;
    Ok(())
}

/// Adds a free level.
fn add_free(slots: &mut Vec<Slot>, left: &[u64]) -> Result<(), NoMemory>
    ensures { OnOk result (Grows 1 slots.old.items slots.new.items left.now left.now) }
{
    add(slots, Slot::Free)?;
    Ok(())
}

/// Half of what a part lacks, rounded up: the greatest weight that its next level can have.
fn half_of(left: u64) -> u64
    ensures { result ≡ left / 2 + left % 2 }
{
    left / 2 + left % 2
}

/// Gives a part a level.
fn give(slots: &mut Vec<Slot>, left: &mut Vec<u64>, part: u32, weight: u64) -> Result<(), NoMemory>
    requires part { part < length left.old.items }
    requires weight { 2 * weight ≤ slice_index_or left.old.items part 0 + 1 }
    ensures grows { OnOk result (Grows 0 slots.old.items slots.new.items left.old.items left.new.items) }
    ensures lacks { OnOk result (slice_index_or left.new.items part 0 + weight ≡ slice_index_or left.old.items part 0) }
{
    add(slots, Slot::Part { part, weight })?;
    left[part as usize] -= weight;
    Ok(())
}

/// Gives a part all levels that it lacks, the greatest weight first: as few as there can be.
fn give_all(slots: &mut Vec<Slot>, left: &mut Vec<u64>, part: u32) -> Result<(), NoMemory>
    requires { part < length left.old.items }
    ensures grows { OnOk result (Grows 0 slots.old.items slots.new.items left.old.items left.new.items) }
    ensures none { OnOk result (slice_index_or left.new.items part 0 ≡ 0) }
{
    while left[part as usize] > 0 {
        let weight = half_of(left[part as usize]);
        give(slots, left, part, weight)?;
    }
    Ok(())
}

/// Gives a part levels of one weight, as many as its weights can have.
fn give_of_weight(
    slots: &mut Vec<Slot>,
    left: &mut Vec<u64>,
    part: u32,
    weight: u64,
) -> Result<(), NoMemory>
    requires part { part < length left.old.items }
    requires weight { 0 < weight }
    ensures { OnOk result (Grows 0 slots.old.items slots.new.items left.old.items left.new.items) }
{
    while weight <= half_of(left[part as usize]) {
        give(slots, left, part, weight)?;
    }
    Ok(())
}

/// Gives each of these parts levels of one weight.
fn give_each(
    slots: &mut Vec<Slot>,
    left: &mut Vec<u64>,
    parts: &[u32],
    weight: u64,
) -> Result<(), NoMemory>
    requires { 0 < weight }
    ensures { OnOk result (Grows 0 slots.old.items slots.new.items left.old.items left.new.items) }
{
    for part in parts {
        if left.len() <= *part as usize {
            continue;
        }
        give_of_weight(slots, left, *part, weight)?;
    }
    Ok(())
}

/// Gives these parts levels by falling weight: powers of two alone, at most two of each for a part.
fn give_cluster(slots: &mut Vec<Slot>, left: &mut Vec<u64>, parts: &[u32]) -> Result<(), NoMemory>
    ensures { OnOk result (Grows 0 slots.old.items slots.new.items left.old.items left.new.items) }
{
    let mut weight = GREATEST_POWER;
    while weight > 0 {
        give_each(slots, left, parts, weight)?;
        weight /= 2;
    }
    Ok(())
}

/// Gives a part all levels that it lacks, where it is a part.
fn give_part(slots: &mut Vec<Slot>, left: &mut Vec<u64>, part: u32) -> Result<(), NoMemory>
    ensures { OnOk result (Grows 0 slots.old.items slots.new.items left.old.items left.new.items) }
{
    if (part as usize) < left.len() {
        give_all(slots, left, part)
    } else {
        Ok(())
    }
}

/// Gives what a place stands for levels.
fn give_place(slots: &mut Vec<Slot>, left: &mut Vec<u64>, place: &Place) -> Result<(), NoMemory>
    ensures { OnOk result (Grows (frees place.now) slots.old.items slots.new.items left.old.items left.new.items) }
{
    match place {
        Place::Part(part) => give_part(slots, left, *part),
        Place::Cluster(parts) => give_cluster(slots, left, parts.as_slice()),
        Place::Free => add_free(slots, left.as_slice()),
    }
}

/// Gives levels in an order.
pub fn give_order(
    slots: &mut Vec<Slot>,
    left: &mut Vec<u64>,
    order: &[Place],
) -> Result<(), NoMemory>
    ensures { OnOk result (Grows (free_count order.now) slots.old.items slots.new.items left.old.items left.new.items) }
{
    for place in order {
        give_place(slots, left, place)?;
    }
    Ok(())
}

/// Gives each part the levels that it lacks.
pub fn give_rest(slots: &mut Vec<Slot>, left: &mut Vec<u64>, parts: u32) -> Result<(), NoMemory>
    requires { parts ≡ length left.old.items }
    ensures grows { OnOk result (Grows 0 slots.old.items slots.new.items left.old.items left.new.items) }
    ensures none { OnOk result ((p : ℕ) → slice_index_or left.new.items p 0 ≡ 0) }
{
    for part in 0..parts {
        give_all(slots, left, part)?;
    }
    Ok(())
}
