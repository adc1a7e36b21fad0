ghost use Rattle.std.specs.Prelude.{◌≡◌, ◌||◌, ◌∷◌, [], ℕ, IfOk, OnOk};
ghost use Rattle.std.specs.List.{IsDistinct};
ghost use Rattle.pair_counts.specs.Bits.{bit};
ghost use Rattle.pair_counts.specs.Has.{has, has_place};
ghost use Rattle.pair_counts.specs.Sets.{is_in};

use crate::bits::Bits;
use indexmap::IndexSet;
use rsml_base::NoMemory;
use std::alloc::Global;
use std::hash::Hash;

/// The places of the numbers of a list: of a short one they are listed, so that it takes no more
/// room than its list.
pub enum Set {
    Few(Vec<usize>),
    Many(Bits),
}

impl Drop for Set {
    fn drop(self) {
        match self {
            Self::Few(_) => {}
            Self::Many(_) => {}
        }
    }
}

impl Set {
    /// The set of a list. What is not among the numbers is passed over.
    pub fn new<T: Eq + Hash + Copy>(
        alloc: Global,
        numbers: &IndexSet<T>,
        list: &[T],
    ) -> Result<Set, NoMemory>
        requires { IsDistinct T.eq numbers.now.keys }
        ensures { IfOk result (λ set.
            (q : ℕ) → has set q ≡ is_in T.eq numbers.now.keys list.now q) }
    {
        let places = places_of(alloc, numbers, list)?;
        if places.len() < numbers.len() / 64 {
            Ok(Set::Few(places))
        } else {
            Ok(Set::Many(bits_of(alloc, places.as_slice())?))
        }
    }

    /// Puts its places in.
    pub fn join_to(&self, bits: &mut Bits) -> Result<(), NoMemory>
        ensures { OnOk result ((q : ℕ) → bit bits.new q ≡ (bit bits.old q || has self.now q)) }
    {
        match self {
            Set::Few(places) => set_all(bits, places.as_slice()),
            Set::Many(others) => bits.join(others),
        }
    }
}

// The places of numbers, where they have one.
fn places_of<T: Eq + Hash + Copy>(
    alloc: Global,
    numbers: &IndexSet<T>,
    list: &[T],
) -> Result<Vec<usize>, NoMemory>
    requires { IsDistinct T.eq numbers.now.keys }
    ensures { IfOk result (λ places.
        (q : ℕ) → has_place places.items q ≡ is_in T.eq numbers.now.keys list.now q) }
{
    let mut places = Vec::new(alloc);
    for number in list {
        put(&mut places, numbers, *number)?;
    }
    Ok(places)
}

// Puts the place of a number last, where it has one.
fn put<T: Eq + Hash + Copy>(
    places: &mut Vec<usize>,
    numbers: &IndexSet<T>,
    number: T,
) -> Result<(), NoMemory>
    requires { IsDistinct T.eq numbers.now.keys }
    ensures { OnOk result ((q : ℕ) → has_place places.new.items q
        ≡ (has_place places.old.items q || is_in T.eq numbers.now.keys (number ∷ []) q)) }
{
    if let Some(place) = numbers.get_index_of(&number) {
        places.push(place)?;
    }
    Ok(())
}

// The set of places.
fn bits_of(alloc: Global, places: &[usize]) -> Result<Bits, NoMemory>
    ensures { IfOk result (λ bits. (q : ℕ) → bit bits q ≡ has_place places.now q) }
{
    let mut bits = Bits::new(alloc);
    set_all(&mut bits, places)?;
    Ok(bits)
}

// Puts places in.
fn set_all(bits: &mut Bits, places: &[usize]) -> Result<(), NoMemory>
    ensures { OnOk result ((q : ℕ) → bit bits.new q ≡ (bit bits.old q || has_place places.now q)) }
{
    for place in places {
        bits.set(*place)?;
    }
    Ok(())
}
