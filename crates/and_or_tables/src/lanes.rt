//! Kernels over the words of columns, several lanes at a time.
ghost use Rattle.std.specs.Prelude.{◌≡◌, ◌+◌, ◌<◌, ◌≤◌, ◌==◌, false, bit_and, length};
ghost use Rattle.std.specs.List.{list_any, range_with_len};
ghost use Rattle.std.specs.Simd.Lanes.{zip2};
ghost use Rattle.rsml_syntax.specs.rules.Tables.{below};
ghost use Rattle.and_or_tables.specs.Cells.{holds};

use std::simd::prelude::*;

/// Whether some column is true for the bits.
pub fn any_holds(care: &[u64], want: &[u64], bits: u64) -> bool
    requires { length care.now ≡ length want.now }
    ensures { result ≡ list_any (holds bits care.now want.now) (below (length care.now)) }
{
    let mut at = 0;
    while care.len() - at >= 16 {
        if any_of_sixteen(care, want, bits, at) {
            return true;
        }
        at += 16;
    }
    any_from_in_fours(care, want, bits, at)
}

fn any_from_in_fours(care: &[u64], want: &[u64], bits: u64, from: usize) -> bool
    requires same { length care.now ≡ length want.now }
    requires within { from ≤ length care.now }
    requires none { list_any (holds bits care.now want.now) (below from) ≡ false }
    ensures { result ≡ list_any (holds bits care.now want.now) (below (length care.now)) }
{
    let mut at = from;
    while care.len() - at >= 4 {
        if any_of_four(care, want, bits, at) {
            return true;
        }
        at += 4;
    }
    any_from(care, want, bits, at)
}

fn any_from(care: &[u64], want: &[u64], bits: u64, from: usize) -> bool
    requires same { length care.now ≡ length want.now }
    requires within { from ≤ length care.now }
    requires none { list_any (holds bits care.now want.now) (below from) ≡ false }
    ensures { result ≡ list_any (holds bits care.now want.now) (below (length care.now)) }
{
    for place in from..care.len() {
        if bits & care[place] == want[place] {
            return true;
        }
    }
    false
}

fn any_of_sixteen(care: &[u64], want: &[u64], bits: u64, at: usize) -> bool
    requires care { at + 16 ≤ length care.now }
    requires want { at + 16 ≤ length want.now }
    ensures { result ≡ list_any (holds bits care.now want.now) (range_with_len at 16) }
{
    let care = u64x16::from_slice(&care[at..]);
    let want = u64x16::from_slice(&want[at..]);
    any_lane_of_sixteen(bits, care, want)
}

fn any_lane_of_sixteen(bits: u64, care: u64x16, want: u64x16) -> bool
    requires care { length care ≡ 16 }
    requires want { length want ≡ 16 }
    ensures { result ≡ list_any (λ b. b) (zip2 (λ c w. bit_and bits c == w) care want) }
{
    let hits = (u64x16::splat(bits) & care).simd_eq(want);
    hits.to_bitmask() != 0
}

fn any_of_four(care: &[u64], want: &[u64], bits: u64, at: usize) -> bool
    requires care { at + 4 ≤ length care.now }
    requires want { at + 4 ≤ length want.now }
    ensures { result ≡ list_any (holds bits care.now want.now) (range_with_len at 4) }
{
    let care = u64x4::from_slice(&care[at..]);
    let want = u64x4::from_slice(&want[at..]);
    any_lane_of_four(bits, care, want)
}

fn any_lane_of_four(bits: u64, care: u64x4, want: u64x4) -> bool
    requires care { length care ≡ 4 }
    requires want { length want ≡ 4 }
    ensures { result ≡ list_any (λ b. b) (zip2 (λ c w. bit_and bits c == w) care want) }
{
    let hits = (u64x4::splat(bits) & care).simd_eq(want);
    hits.to_bitmask() != 0
}
