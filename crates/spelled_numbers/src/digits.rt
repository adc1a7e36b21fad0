//! The value of one level where numbers are spelled.
ghost use Rattle.std.specs.Prelude.{◌≡◌, ◌-◌, ◌^◌, ◌<◌, ℕ, Bool, if◌then◌else◌, nat_lt};
ghost use Rattle.spelled_numbers.specs.Spelling.{weight_for, total, spelled, IsLevelOf};

use crate::slot::Slot;

/// Whether a level of a part is true where `number` is spelled for that part, whatever numbers are
/// for the others. It looks at all slots before the level.
pub fn digit(slots: &[Slot], part: u32, level: usize, number: u64) -> bool
    requires own { IsLevelOf part slots.now level }
    requires small { total part slots.now < 2 ^ 64 }
    ensures { (numbers : ℕ → ℕ) (free : ℕ → Bool) → numbers part ≡ number
        → result ≡ spelled slots.now numbers free level }
{
    let mut later = total_of(slots, part);
    let mut left = number;
    for place in 0..level {
        let weight = weight_of(slots[place], part);
        later -= weight;
        left = rest_of(left, weight, later);
    }
    let own = weight_of(slots[level], part);
    let after = later - own;
    after < left
}

/// What is left of a number after a level with this weight, where the later ones come to `later`.
fn rest_of(left: u64, weight: u64, later: u64) -> u64
    ensures { result ≡ (if nat_lt later left then left - weight else left) }
{
    if later < left {
        left.saturating_sub(weight)
    } else {
        left
    }
}

/// The weight of a slot for a part.
fn weight_of(slot: Slot, part: u32) -> u64
    ensures { result ≡ weight_for part slot }
{
    match slot {
        Slot::Part { part: of, weight } => { if of == part { weight } else { 0 } }
        Slot::Free => 0,
    }
}

/// The greatest number of a part.
fn total_of(slots: &[Slot], part: u32) -> u64
    requires { total part slots.now < 2 ^ 64 }
    ensures { result ≡ total part slots.now }
{
    let mut total = 0;
    for slot in slots {
        total += weight_of(*slot, part);
    }
    total
}
