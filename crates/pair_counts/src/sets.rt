ghost use Rattle.std.specs.Prelude.{◌≡◌, ◌||◌, ◌∷◌, [], ℕ, IfOk, OnOk, map, flat_map};
ghost use Rattle.std.specs.List.{IsDistinct, list_any};
ghost use Rattle.indexmap.specs.IndexSet.{insert_all};
ghost use Rattle.pair_counts.specs.AreSets.{AreSets};
ghost use Rattle.pair_counts.specs.Bits.{bit};
ghost use Rattle.pair_counts.specs.Has.{has_at};
ghost use Rattle.pair_counts.specs.Sets.{once, is_in, joined_at};

use crate::bits::Bits;
use crate::set::Set;
use indexmap::IndexSet;
use rsml_base::NoMemory;
use std::alloc::Global;
use std::hash::Hash;
use std::marker::Model;

/// Lists as sets: of each the places of its numbers among all numbers.
#[derive(Drop)]
pub struct Sets<'a, T: Eq + Hash> {
    numbers: &'a IndexSet<T>,
    lists: &'a [Vec<T>],
    sets: Vec<Set>,
}

impl<'a, T: Eq + Hash> Model for Sets<'a, T> {
    ghost use Rattle.std.specs.Prelude.{map};
    ghost use Rattle.pair_counts.specs.AreSets.{AreSets};
    ghost use Rattle.pair_counts.specs.Sets as spec;

    ghost Value = { spec.Sets T };

    ghost view = { λ s. record { numbers = s.numbers.now.keys; lists = map (λ l. l.items) s.lists.now } };

    ghost invariant = { λ s. AreSets T.eq s.numbers.now.keys (map (λ l. l.items) s.lists.now) s.sets.items };
}

impl<'a, T: Eq + Hash + Copy> Sets<'a, T> {
    /// The sets of lists. What is not among the numbers is passed over.
    pub fn new(
        alloc: Global,
        numbers: &'a IndexSet<T>,
        lists: &'a [Vec<T>],
    ) -> Result<Sets<'a, T>, NoMemory>
        requires { IsDistinct T.eq numbers.now.keys }
        ensures { IfOk result (λ sets. sets ≡ record {
          numbers = numbers.now.keys;
          lists = map (λ l. l.items) lists.now;
        }) }
    {
        Ok(Sets {
            numbers,
            lists,
            sets: sets_of(alloc, numbers, lists)?,
        })
    }

    /// The numbers whose places stand for them.
    pub fn numbers(&self) -> &'a IndexSet<T>
        ensures { result.now.keys ≡ self.now.numbers }
    {
        self.numbers
    }

    /// The lists.
    pub fn lists(&self) -> &'a [Vec<T>]
        ensures { map (λ l. l.items) result.now ≡ self.now.lists }
    {
        self.lists
    }

    /// The sets of other lists, among the same numbers.
    pub fn of_others(&self, alloc: Global, lists: &'a [Vec<T>]) -> Result<Sets<'a, T>, NoMemory>
        ensures { IfOk result (λ sets. sets ≡ record {
          numbers = self.now.numbers;
          lists = map (λ l. l.items) lists.now;
        }) }
    {
        Sets::new(alloc, self.numbers, lists)
    }

    /// The set of the lists at some places.
    pub fn union(&self, alloc: Global, places: &[u32]) -> Result<Bits, NoMemory>
        ensures { IfOk result (λ bits. (q : ℕ) →
            bit bits q ≡ is_in T.eq self.now.numbers (joined_at self.now places.now) q) }
    {
        union(alloc, self.sets.as_slice(), places)
    }
}

/// The numbers of lists, each once.
pub fn numbers<T: Eq + Hash + Copy>(
    alloc: Global,
    lists: &[Vec<T>],
) -> Result<IndexSet<T>, NoMemory>
    ensures { IfOk result (λ numbers. numbers.keys
        ≡ once T.eq (flat_map (λ l. l) (map (λ l. l.items) lists.now))) }
{
    let mut numbers = IndexSet::new(alloc);
    for list in lists {
        put_all(&mut numbers, list)?;
    }
    Ok(numbers)
}

// Puts in the numbers that are not there yet.
fn put_all<T: Eq + Hash + Copy>(numbers: &mut IndexSet<T>, more: &[T]) -> Result<(), NoMemory>
    ensures { OnOk result (numbers.new.keys ≡ insert_all T.eq numbers.old.keys more.now) }
{
    for number in more {
        numbers.insert(*number)?;
    }
    Ok(())
}

// The set of each list.
fn sets_of<T: Eq + Hash + Copy>(
    alloc: Global,
    numbers: &IndexSet<T>,
    lists: &[Vec<T>],
) -> Result<Vec<Set>, NoMemory>
    requires { IsDistinct T.eq numbers.now.keys }
    ensures { IfOk result (λ sets. AreSets T.eq numbers.now.keys (map (λ l. l.items) lists.now) sets.items) }
{
    let mut sets = Vec::new(alloc);
    for list in lists {
        sets.push(Set::new(alloc, numbers, list)?)?;
    }
    Ok(sets)
}

// The sets at some places together.
fn union(alloc: Global, sets: &[Set], places: &[u32]) -> Result<Bits, NoMemory>
    ensures { IfOk result (λ bits. (q : ℕ) →
        bit bits q ≡ list_any (λ place. has_at sets.now place q) places.now) }
{
    let mut bits = Bits::new(alloc);
    for place in places {
        join(&mut bits, sets, *place)?;
    }
    Ok(bits)
}

// Puts in the places of the set at a place, where there is one.
fn join(bits: &mut Bits, sets: &[Set], place: u32) -> Result<(), NoMemory>
    ensures { OnOk result ((q : ℕ) →
        bit bits.new q ≡ (bit bits.old q || has_at sets.now place q)) }
{
    match sets.get(place as usize) {
        Some(set) => set.join_to(bits),
        None => Ok(()),
    }
}
