//! The levels of each part, and the free levels.
ghost use Rattle.std.specs.Prelude.{◌≡◌, ◌^◌, ◌<◌, ◌≤◌, [], ◌∷◌, ◌++◌, IfOk, OnOk, length, replicate, slice_index_or, slice_set};
ghost use Rattle.world_levels.specs.Spelling.{free_from};
ghost use Rattle.world_levels.specs.Stored.{AddsBit, AreBits, is_free};

use rsml_base::{List, NoMemory};
use spelled_numbers::{Slot, Weighted};
use std::alloc::Global;

/// The free levels, rising.
pub fn free_levels(alloc: Global, slots: &[Slot]) -> Result<Vec<u32>, NoMemory>
    requires { length slots.now ≤ 2 ^ 31 }
    ensures { IfOk result (λ free. free.items ≡ free_from slots.now 0) }
{
    let mut free = Vec::new(alloc);
    for (level, slot) in slots.iter().enumerate() {
        if is_free(*slot) {
            free.push(level as u32)?;
        }
    }
    Ok(free)
}

/// Whether a level is for no part.
fn is_free(slot: Slot) -> bool
    ensures { result ≡ is_free slot }
{
    match slot {
        Slot::Part { .. } => false,
        Slot::Free => true,
    }
}

/// The levels of each part with their weights.
pub fn bits(alloc: Global, slots: &[Slot], parts: u32) -> Result<Vec<List<Weighted>>, NoMemory>
    requires { length slots.now ≤ 2 ^ 31 }
    ensures { IfOk result (λ bits. AreBits parts slots.now bits.items) }
{
    let mut bits = no_bits(alloc, parts)?;
    for (level, slot) in slots.iter().enumerate() {
        add_bit(&mut bits, *slot, level as u32)?;
    }
    Ok(bits)
}

/// So many empty lists.
fn no_bits(alloc: Global, parts: u32) -> Result<Vec<List<Weighted>>, NoMemory>
    ensures { IfOk result (λ bits. bits.items ≡ replicate parts []) }
{
    let mut bits = Vec::new(alloc);
    for _part in 0..parts {
        bits.push(List::new(alloc))?;
    }
    Ok(bits)
}

/// Adds a level to the list of its part, where it has one.
fn add_bit(bits: &mut Vec<List<Weighted>>, slot: Slot, level: u32) -> Result<(), NoMemory>
    ensures { OnOk result (AddsBit slot level bits.old.items bits.new.items) }
{
    match slot {
        Slot::Part { part, weight } => {
            if bits.len() <= part as usize {
                return Ok(());
            }
            push_at(
                bits,
                part,
                Weighted {
                    minus: false,
                    level,
                    weight,
                },
            )
        }
        Slot::Free => Ok(()),
    }
}

/// Puts a level last in the list at a place.
fn push_at(bits: &mut Vec<List<Weighted>>, part: u32, bit: Weighted) -> Result<(), NoMemory>
    requires { part < length bits.old.items }
    ensures { OnOk result (bits.new.items
        ≡ slice_set bits.old.items part (slice_index_or bits.old.items part [] ++ bit ∷ [])) }
{
    bits[part as usize].push(bit)?;
    Ok(())
}
