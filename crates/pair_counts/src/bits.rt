ghost use Rattle.std.specs.Prelude.{◌≡◌, ℕ, ◌*◌, ◌≤◌, ◌==◌, ◌&&◌, ◌||◌, false, not, OnOk, length, slice_index, bit_or};
ghost use Rattle.rsml_base.specs.Counting.{shown};
ghost use Rattle.pair_counts.specs.Bits.{bit, one, adds_below};

use rsml_base::NoMemory;
use std::alloc::Global;
use std::marker::Model;

/// A set of places.
#[derive(Drop)]
pub struct Bits {
    words: Vec<u64>,
}

impl Model for Bits {
    ghost use Rattle.std.specs.Prelude.{List, ℕ};

    ghost Value = { List ℕ };

    ghost view = { λ b. b.words.items };
}

impl Bits {
    /// No places.
    pub fn new(alloc: Global) -> Bits
        ensures { (q : ℕ) → bit result q ≡ false }
    {
        Bits {
            words: Vec::new(alloc),
        }
    }

    /// Puts a place in.
    pub fn set(&mut self, place: usize) -> Result<(), NoMemory>
        ensures { OnOk result ((q : ℕ) → bit self.new q ≡ (bit self.old q || place == q)) }
    {
        grow(&mut self.words, place / 64 + 1)?;
        self.words[place / 64] |= 1 << (place % 64);
        Ok(())
    }

    /// Puts the places of another set in.
    pub fn join(&mut self, other: &Bits) -> Result<(), NoMemory>
        ensures { OnOk result ((q : ℕ) → bit self.new q ≡ (bit self.old q || bit other.now q)) }
    {
        grow(&mut self.words, other.words.len())?;
        join_words(&mut self.words, other.words.as_slice());
        Ok(())
    }

    /// How many places there are that the other set does not have; stops at the greatest u64.
    pub fn count_without(&self, other: &Bits) -> u64
        ensures { result
            ≡ shown (adds_below (λ q. one (bit self.now q && not (bit other.now q))) (64 * length self.now)) }
    {
        let mut sum = 0u64;
        for (place, word) in self.words.iter().enumerate() {
            let others = other.words.get(place).copied().unwrap_or(0);
            sum = sum.saturating_add(u64::from((*word & !others).count_ones()));
        }
        sum
    }
}

// Makes room for so many words, without places.
fn grow(words: &mut Vec<u64>, many: usize) -> Result<(), NoMemory>
    ensures room { OnOk result (many ≤ length words.new.items) }
    ensures same { OnOk result ((place : ℕ) →
        slice_index words.new.items place ≡ slice_index words.old.items place) }
{
    let room = words.len().max(many);
    words.resize(room, 0)?;
    Ok(())
}

// Puts the bits of words into others, of which there are as many at least.
fn join_words(words: &mut Vec<u64>, others: &[u64])
    requires { length others.now ≤ length words.old.items }
    ensures { (place : ℕ) → slice_index words.new.items place
        ≡ bit_or (slice_index words.old.items place) (slice_index others.now place) }
{
    for (place, word) in others.iter().enumerate() {
        words[place] |= *word;
    }
}
