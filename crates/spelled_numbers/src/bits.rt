//! The levels of a part, as terms of a sum.
ghost use Rattle.std.specs.Prelude.{◌≡◌, ◌^◌, ◌≤◌, length, IfOk};
ghost use Rattle.spelled_numbers.specs.Bits.{bit_of, bits_of};

use crate::Weighted;
use crate::slot::Slot;
use rsml_base::NoMemory;
use std::alloc::Global;

/// The levels of a part with their weights, whose sum is the part's number, or that taken off.
pub fn bits_of(
    alloc: Global,
    slots: &[Slot],
    part: u32,
    minus: bool,
) -> Result<Vec<Weighted>, NoMemory>
    requires { length slots.now ≤ 2 ^ 32 }
    ensures { IfOk result (λ terms. terms.items ≡ bits_of part minus slots.now 0) }
{
    let mut terms = Vec::new(alloc);
    for (level, slot) in slots.iter().enumerate() {
        if let Some(term) = bit_of(*slot, part, minus, level as u32) {
            terms.push(term)?;
        }
    }
    Ok(terms)
}

/// A level, where it is the part's.
fn bit_of(slot: Slot, part: u32, minus: bool, level: u32) -> Option<Weighted>
    ensures { result ≡ bit_of part minus slot level }
{
    match slot {
        Slot::Part { part: of, weight } => {
            if of == part {
                Some(Weighted {
                    minus,
                    level,
                    weight,
                })
            } else {
                None
            }
        }
        Slot::Free => None,
    }
}
