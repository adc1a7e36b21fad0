//! Sums of weights.
ghost use Rattle.std.specs.Prelude.{◌≡◌, ◌^◌, ◌<◌, if◌then◌else◌, pos, neg_ℤ, ◌+ℤ◌, ◌-ℤ◌, ◌≤ℤ◌, ◌<ℤ◌, MatchOption};
ghost use Rattle.spelled_numbers.specs.Sums.{total_weight};
ghost use Rattle.spelled_numbers.specs.Steps.{taken_off};

use crate::weighted::Weighted;

/// The sum of all weights.
pub(crate) fn total_of(terms: &[Weighted]) -> u64
    requires { total_weight terms.now < 2 ^ 64 }
    ensures { result ≡ total_weight terms.now }
{
    let mut total = 0;
    for term in terms {
        total += term.weight;
    }
    total
}

/// What the levels take off where all are true.
pub(crate) fn off_of(terms: &[Weighted]) -> u64
    requires { total_weight terms.now < 2 ^ 64 }
    ensures { result ≡ taken_off terms.now }
{
    let mut off = 0;
    for term in terms {
        off += taken(*term);
    }
    off
}

/// What a level takes off where it is true.
fn taken(term: Weighted) -> u64
    ensures { result ≡ (if term.minus then term.weight else 0) }
{
    if term.minus { term.weight } else { 0 }
}

/// `bound + off`, None where that is below 0.
pub(crate) fn room_for(off: u64, bound: i64) -> Option<u64>
    requires small { off < 2 ^ 44 }
    requires low { (neg_ℤ (pos (2 ^ 44)) -ℤ pos 1) ≤ℤ bound }
    requires high { bound ≤ℤ pos (2 ^ 44) }
    ensures { MatchOption result ((bound +ℤ pos off) <ℤ pos 0) (λ room. pos room ≡ bound +ℤ pos off) }
{
    let size = bound.unsigned_abs();
    if bound >= 0 {
        Some(off + size)
    } else {
        off.checked_sub(size)
    }
}
