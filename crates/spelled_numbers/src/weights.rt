//! The weights of one part, which spell each number from 0 to its span.
ghost use Rattle.std.specs.Prelude.{◌≡◌, sum, IfOk};
ghost use Rattle.spelled_numbers.specs.Weights.{IsCovering};

use rsml_base::NoMemory;
use std::alloc::Global;

/// Weights for a part that meets no other in a sum, the greatest first: as few as there can be.
/// Each is half of what is left, rounded up, so that a bound on the part is one path of nodes.
pub fn plain(alloc: Global, span: u64) -> Result<Vec<u64>, NoMemory>
    ensures total { IfOk result (λ weights. sum weights.items ≡ span) }
    ensures covers { IfOk result (λ weights. IsCovering weights.items) }
{
    let mut weights = Vec::new(alloc);
    let mut left = span;
    while left > 0 {
        let weight = left / 2 + left % 2;
        weights.push(weight)?;
        left -= weight;
    }
    Ok(weights)
}

/// Weights for a part that meets others in sums, the greatest first: powers of two alone, at most
/// two of each, so that sums of several parts come to few different numbers.
pub fn powers(alloc: Global, span: u64) -> Result<Vec<u64>, NoMemory>
    ensures total { IfOk result (λ weights. sum weights.items ≡ span) }
    ensures covers { IfOk result (λ weights. IsCovering weights.items) }
{
    let mut weights = Vec::new(alloc);
    let mut left = span;
    let mut power: u64 = 0x8000_0000_0000_0000;
    while left > 0 {
        if power > left / 2 + left % 2 {
            power /= 2;
            continue;
        }
        weights.push(power)?;
        left -= power;
    }
    Ok(weights)
}
