ghost use Rattle.std.specs.Prelude.{◌≡◌, ℕ, ◌*◌, ◌==◌, ◌&&◌, ◌||◌, [], ◌∷◌, ◌++◌, None, not, IfOk, OnOk, OnErr, length};
ghost use Rattle.indexmap.specs.IndexMap.{get_by};
ghost use Rattle.rsml_base.specs.Counting.{shown};
ghost use Rattle.pair_counts.specs.Bits.{bit, one, adds_below};
ghost use Rattle.pair_counts.specs.Outside.{is_outside, same_range, HasOutside};
ghost use Rattle.pair_counts.specs.Sets.{passes_at};

use crate::bits::Bits;
use crate::blocks::Range;
use indexmap::{IndexMap, IndexSet};
use rsml_base::NoMemory;
use std::alloc::Global;
use std::marker::Model;

/// The places of the numbers that are not within a range, of each range once they are asked for.
#[derive(Drop)]
pub struct Outside<'a> {
    numbers: &'a IndexSet<i128>,
    known: IndexMap<Range, Bits>,
}

impl<'a> Model for Outside<'a> {
    ghost use Rattle.std.specs.Prelude.{List, ℤ};
    ghost use Rattle.std.specs.List.{All};
    ghost use Rattle.pair_counts.specs.Outside as spec;

    ghost Value = { List ℤ };

    ghost view = { λ o. o.numbers.now.keys };

    ghost invariant = { λ o. All (λ e. spec.HasOutside o.numbers.now.keys e.0 e.1) o.known.entries };
}

impl<'a> Outside<'a> {
    /// No range is known yet.
    pub fn new(alloc: Global, numbers: &'a IndexSet<i128>) -> Outside<'a>
        ensures { result ≡ numbers.now.keys }
    {
        Outside {
            numbers,
            known: IndexMap::new(alloc),
        }
    }

    /// How many places of a set are not those of numbers outside a range; stops at the greatest
    /// u64.
    pub fn count_within(&mut self, alloc: Global, own: &Bits, range: Range) -> Result<u64, NoMemory>
        ensures count { IfOk result (λ count. count ≡ shown (adds_below
            (λ q. one (bit own.now q && not (passes_at (is_outside range) self.old q)))
            (64 * length own.now))) }
        ensures same { self.new ≡ self.old }
    {
        if let Some(others) = self.known.get(&range) {
            return Ok(own.count_without(others));
        }
        let others = places_outside(alloc, self.numbers.as_slice(), range)?;
        let count = own.count_without(&others);
        keep(&mut self.known, range, others)?;
        Ok(count)
    }
}

// Puts the places of a range last, which is not known yet.
fn keep(known: &mut IndexMap<Range, Bits>, range: Range, others: Bits) -> Result<(), NoMemory>
    requires { get_by (same_range range) known.old ≡ None }
    ensures ok { OnOk result (known.new.entries ≡ known.old.entries ++ (range, others) ∷ []) }
    ensures err { OnErr result (known.new.entries ≡ known.old.entries) }
{
    known.insert(range, others)?;
    Ok(())
}

// The places of the numbers that are not within a range.
fn places_outside(alloc: Global, numbers: &[i128], range: Range) -> Result<Bits, NoMemory>
    ensures { IfOk result (HasOutside numbers.now range) }
{
    let mut others = Bits::new(alloc);
    for (place, number) in numbers.iter().enumerate() {
        put(&mut others, place, number, range)?;
    }
    Ok(others)
}

// Puts the place of a number in where the number is not within a range.
fn put(others: &mut Bits, place: usize, number: &i128, range: Range) -> Result<(), NoMemory>
    ensures { OnOk result ((q : ℕ) →
        bit others.new q ≡ (bit others.old q || (is_outside range number.now && place == q))) }
{
    if range.has(*number) {
        Ok(())
    } else {
        others.set(place)
    }
}
