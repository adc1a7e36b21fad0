//! Kernels that count how often the columns of a table are true, several lanes at a time.
ghost use Rattle.std.specs.Prelude.{◌≡◌, ℕ, ◌+◌, ◌^◌, ◌<◌, ◌≤◌, ◌==◌, if◌then◌else◌, bit_and, count_by, length, slice_index, take};
ghost use Rattle.std.specs.Simd.Lanes.{Each1, sum_l, zip2};
ghost use Rattle.and_or_tables.specs.Cells.{holds};

use std::simd::prelude::*;

/// Adds 1 to the count of each column that is true for the bits.
pub fn count_holds(care: &[u64], want: &[u64], bits: u64, counts: &mut [u64])
    requires same { length care.now ≡ length want.now }
    requires counts { length counts.old ≡ length care.now }
    requires room { (k : ℕ) → k < length care.now → slice_index counts.old k < u64.MAX }
    ensures { (k : ℕ) → k < length care.now → slice_index counts.new k
        ≡ slice_index counts.old k + (if holds bits care.now want.now k then 1 else 0) }
{
    let mut at = 0;
    while care.len() - at >= 4 {
        count_four(care, want, bits, at, counts);
        at += 4;
    }
    count_rest(care, want, bits, at, counts);
}

/// The same for the columns from a place on, one by one.
fn count_rest(care: &[u64], want: &[u64], bits: u64, from: usize, counts: &mut [u64])
    requires same { length care.now ≡ length want.now }
    requires counts { length counts.old ≡ length care.now }
    requires within { from ≤ length care.now }
    requires room { (k : ℕ) → from ≤ k → k < length care.now → slice_index counts.old k < u64.MAX }
    ensures below { (k : ℕ) → k < from → slice_index counts.new k ≡ slice_index counts.old k }
    ensures counted { (k : ℕ) → from ≤ k → k < length care.now → slice_index counts.new k
        ≡ slice_index counts.old k + (if holds bits care.now want.now k then 1 else 0) }
{
    for place in from..care.len() {
        if bits & care[place] == want[place] {
            counts[place] += 1;
        }
    }
}

/// The same for the four columns from a place on.
fn count_four(care: &[u64], want: &[u64], bits: u64, at: usize, counts: &mut [u64])
    requires care { at + 4 ≤ length care.now }
    requires want { at + 4 ≤ length want.now }
    requires counts { at + 4 ≤ length counts.old }
    requires room { (k : ℕ) → at ≤ k → k < at + 4 → slice_index counts.old k < u64.MAX }
    ensures below { (k : ℕ) → k < at → slice_index counts.new k ≡ slice_index counts.old k }
    ensures counted { (k : ℕ) → at ≤ k → k < at + 4 → slice_index counts.new k
        ≡ slice_index counts.old k + (if holds bits care.now want.now k then 1 else 0) }
    ensures above { (k : ℕ) → at + 4 ≤ k → slice_index counts.new k ≡ slice_index counts.old k }
{
    let care = u64x4::from_slice(&care[at..]);
    let want = u64x4::from_slice(&want[at..]);
    let sums = counted_lanes(bits, care, want, u64x4::from_slice(&counts[at..]));
    sums.copy_to_slice(&mut counts[at..]);
}

fn counted_lanes(bits: u64, care: u64x4, want: u64x4, counts: u64x4) -> u64x4
    requires care { length care ≡ 4 }
    requires want { length want ≡ 4 }
    requires counts { length counts ≡ 4 }
    requires room { Each1 (λ count. count < u64.MAX) counts }
    ensures { result ≡ zip2 (λ count hit. count + (if hit then 1 else 0)) counts
        (zip2 (λ c w. bit_and bits c == w) care want) }
{
    let hits = (u64x4::splat(bits) & care).simd_eq(want);
    counts.strict_add(hits.select(u64x4::splat(1), u64x4::splat(0)))
}

/// How many words are counted for all columns before the next ones are read: they stay in the
/// processor's nearest memory meanwhile.
const BLOCK: usize = 1024;

/// Adds to the count of each column the number of words that it is true for.
pub fn count_all_holds(care: &[u64], want: &[u64], words: &[u64], counts: &mut [u64])
    requires same { length care.now ≡ length want.now }
    requires counts { length counts.old ≡ length care.now }
    requires room { (k : ℕ) → k < length care.now
        → slice_index counts.old k + length words.now ≤ u64.MAX }
    ensures { (k : ℕ) → k < length care.now → slice_index counts.new k
        ≡ slice_index counts.old k + count_by (λ word. holds word care.now want.now k) words.now }
{
    let mut at = 0;
    while words.len() - at > BLOCK {
        count_block(care, want, &words[at..at + BLOCK], counts);
        at += BLOCK;
    }
    count_block(care, want, &words[at..], counts);
}

/// The same, column by column.
fn count_block(care: &[u64], want: &[u64], words: &[u64], counts: &mut [u64])
    requires same { length care.now ≡ length want.now }
    requires counts { length counts.old ≡ length care.now }
    requires room { (k : ℕ) → k < length care.now
        → slice_index counts.old k + length words.now ≤ u64.MAX }
    ensures { (k : ℕ) → k < length care.now → slice_index counts.new k
        ≡ slice_index counts.old k + count_by (λ word. holds word care.now want.now k) words.now }
{
    for place in 0..care.len() {
        counts[place] += count_words(words, care[place], want[place]);
    }
}

/// How many of the words the column of these masks is true for.
fn count_words(words: &[u64], care: u64, want: u64) -> u64
    ensures { result ≡ count_by (λ word. bit_and word care == want) words.now }
{
    let mut sums = u64x4::splat(0);
    let mut at = 0;
    while words.len() - at >= 4 {
        sums = more_hits(sums, u64x4::from_slice(&words[at..]), care, want);
        at += 4;
    }
    count_last_words(words, care, want, at, sum_of_lanes(sums))
}

/// The same, where the words before a place are counted already.
fn count_last_words(words: &[u64], care: u64, want: u64, from: usize, so_far: u64) -> u64
    requires within { from ≤ length words.now }
    requires counted { so_far ≡ count_by (λ word. bit_and word care == want) (take from words.now) }
    ensures { result ≡ count_by (λ word. bit_and word care == want) words.now }
{
    let mut count = so_far;
    for place in from..words.len() {
        if words[place] & care == want {
            count += 1;
        }
    }
    count
}

fn more_hits(sums: u64x4, words: u64x4, care: u64, want: u64) -> u64x4
    requires sums { length sums ≡ 4 }
    requires words { length words ≡ 4 }
    requires room { sum_l sums + 4 < 2 ^ 64 }
    ensures lanes { length result ≡ 4 }
    ensures counted { sum_l result
        ≡ sum_l sums + count_by (λ word. bit_and word care == want) words }
{
    let hits = (words & u64x4::splat(care)).simd_eq(u64x4::splat(want));
    sums.strict_add(hits.select(u64x4::splat(1), u64x4::splat(0)))
}

fn sum_of_lanes(sums: u64x4) -> u64
    requires lanes { length sums ≡ 4 }
    requires room { sum_l sums < 2 ^ 64 }
    ensures { result ≡ sum_l sums }
{
    sums.strict_reduce_sum()
}
