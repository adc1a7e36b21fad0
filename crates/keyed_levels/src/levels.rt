ghost use Rattle.std.specs.Prelude.{◌≡◌, ◌<◌, ◌≤◌, ◌+◌, ◌^◌, ℕ, All, IfOk, IfSome, Some, length, slice_get};
ghost use Rattle.rsml_meaning.specs.Cells.{cells};
ghost use Rattle.rsml_ground.specs.Rests.{RestsOn};
ghost use Rattle.keyed_levels.specs.Keyed.{AreKeyed, Extends, HasNoBounds, IsKeyOf, PhraseFits, StandsFor, phrases_of, unbounded};
ghost use Rattle.keyed_levels.specs.Stored.{IsNextKey};

use crate::keyed::Keyed;
use crate::order::{compared, paired, places};
use crate::place::KeyPlace;
use macros::Macros;
use rsml_base::NoMemory;
use rsml_ground::GroundPhrase;
use std::alloc::Global;
use std::marker::Model;
use world_levels::Layout;
use worlds::Worlds;

/// The levels of the worlds of a specification, some of which stand for comparisons: for phrases of the specification, for others
/// beside them, and for bounds, which can be taken back. Bounds take the levels that are spare.
pub struct KeyedLevels<'m, 'a> {
    macros: &'m Macros<'a>,
    layout: Layout<'m>,
    /// The comparisons beside the phrases: those that stay, and those of bounds.
    beside: Vec<GroundPhrase>,
    keyed: Vec<Keyed>,
    places: Vec<Option<u32>>,
    /// How many comparisons beside the phrases, and how many keys, are not those of bounds.
    first_phrases: usize,
    first_keys: usize,
}

impl Drop for KeyedLevels<'_, '_> {
    fn drop(self) {
        let Self {
            macros: _,
            layout: _,
            beside: _,
            keyed: _,
            places: _,
            first_phrases: _,
            first_keys: _,
        } = self;
    }
}

impl<'m, 'a> Model for KeyedLevels<'m, 'a> {
    ghost use Rattle.std.specs.Coded.{codes};
    ghost use Rattle.rsml_syntax.specs.contracts.syntax.Body as bodies;
    ghost use Rattle.keyed_levels.specs.Keyed.{KeyedWorlds};
    ghost use Rattle.keyed_levels.specs.Stored.{with_parts, AreStored};

    ghost Value = { KeyedWorlds };

    ghost coded = { Prim.hlevel (codes, bodies.the_row.coded) };

    ghost view = { λ k. with_parts k.macros.now (record {
      phrases = k.beside.items;
      first_phrases = k.first_phrases;
      first_keys = k.first_keys;
    }) k.layout k.keyed.items };

    ghost invariant = { λ k. AreStored k.macros.now (record {
      phrases = k.beside.items;
      first_phrases = k.first_phrases;
      first_keys = k.first_keys;
    }) k.layout k.keyed.items k.places.items };
}

impl<'m, 'a> KeyedLevels<'m, 'a> {
    /// Levels for the worlds of a specification, in this order. A part or a comparison gets its levels where it is named first. What
    /// is no part and no phrase is left out, and parts that are not named come last. Comparisons beside the phrases have the numbers
    /// after these. So many levels at the end of the order are spare.
    pub fn new(
        alloc: Global,
        macros: &'m Macros<'a>,
        worlds: &'m Worlds<'m>,
        order: &[KeyPlace],
        beside: Vec<GroundPhrase>,
        spare: u32,
    ) -> Result<KeyedLevels<'m, 'a>, NoMemory>
        requires same { worlds.now ≡ macros.now.spec }
        requires beside { All (PhraseFits (length (cells macros.now.spec))) beside.items }
        ensures base { IfOk result (λ k. k.base ≡ macros.now) }
        ensures bounds { IfOk result HasNoBounds }
    {
        let count = number_after(macros.phrases(), beside.len()).ok_or(NoMemory)?;
        let phrases = compared(alloc, count, order)?;
        let places = places(alloc, order, spare)?;
        let layout = Layout::new(alloc, worlds, places.as_slice())?;
        KeyedLevels::with_layout(alloc, macros, layout, beside, count, phrases.as_slice())
    }

    /// The free levels of a layout for comparisons, one after another.
    fn with_layout(
        alloc: Global,
        macros: &'m Macros<'a>,
        layout: Layout<'m>,
        beside: Vec<GroundPhrase>,
        count: u32,
        phrases: &[u32],
    ) -> Result<KeyedLevels<'m, 'a>, NoMemory>
        requires same { layout.spec ≡ macros.now.spec }
        requires beside { All (PhraseFits (length (cells macros.now.spec))) beside.items }
        requires count { count ≡ length macros.now.phrases + length beside.items }
        requires phrases { All (λ p. p < count) phrases.now }
        ensures base { IfOk result (λ k. k.base ≡ macros.now) }
        ensures bounds { IfOk result HasNoBounds }
    {
        layout.law();
        let keyed = paired(alloc, layout.free_levels(), phrases)?;
        let places = places_of(alloc, count, keyed.as_slice())?;
        let first_phrases = beside.len();
        let first_keys = keyed.len();
        Ok(KeyedLevels {
            macros,
            layout,
            beside,
            keyed,
            places,
            first_phrases,
            first_keys,
        })
    }

    /// The phrases of the specification, of which some have levels.
    pub fn macros(&self) -> &'m Macros<'a>
        ensures { result.now ≡ self.now.base }
    {
        let _ = &self.places;
        self.macros
    }

    /// The phrase of a number.
    #[tactic(auto, using(crate::proofs::Bounds::first_phrase))]
    pub fn phrase(&self, number: u32) -> &GroundPhrase
        requires { number < length (phrases_of self.now) }
        ensures is { slice_get (phrases_of self.now) number ≡ Some result.now }
        ensures rests { RestsOn self.now.base.definitions (length (cells self.now.base.spec)) number result.now }
    {
        let count = self.macros.phrases();
        if number < count {
            self.macros.phrase(number)
        } else {
            &self.beside[(number - count) as usize]
        }
    }

    /// The levels of the worlds.
    pub fn layout(&self) -> &Layout<'m>
        ensures spec { result.now.spec ≡ self.now.base.spec }
        ensures slots { result.now.slots ≡ self.now.slots }
    {
        let _ = &self.places;
        &self.layout
    }

    /// The levels that stand for comparisons.
    pub fn keys(&self) -> &[Keyed]
        ensures keyed { result.now ≡ self.now.keyed }
        ensures law { AreKeyed self.now }
    {
        let _ = &self.places;
        self.keyed.as_slice()
    }

    /// The place among the keys of that of a phrase. None where the phrase has no level of its own.
    pub fn key_of(&self, phrase: u32) -> Option<u32>
        ensures { IfSome result (IsKeyOf self.now.keyed phrase) }
    {
        let _ = &self.layout;
        match self.places.get(phrase as usize) {
            Some(place) => *place,
            None => None,
        }
    }

    /// A level that stands for a comparison from now on: one that does already, or else a spare one. None where none is left.
    #[tactic(auto, using(crate::proofs::Bounds::extends_itself))]
    pub fn stand_for(&mut self, bound: GroundPhrase) -> Result<Option<u32>, NoMemory>
        requires { PhraseFits (length (cells self.old.base.spec)) bound }
        ensures extends { Extends self.old self.new }
        ensures first { unbounded self.new ≡ unbounded self.old }
        ensures few { length self.new.keyed ≤ length self.old.keyed + 1 }
        ensures level { IfOk result (λ found. IfSome found (StandsFor self.new bound)) }
    {
        match self.level_for(&bound) {
            Some(level) => Ok(Some(level)),
            None => self.take_spare(bound),
        }
    }

    /// The level of a key that stands for a comparison.
    fn level_for(&self, bound: &GroundPhrase) -> Option<u32>
        ensures { IfSome result (StandsFor self.now bound.now) }
    {
        for key in self.keys() {
            if self.phrase(key.phrase) == bound {
                return Some(key.level);
            }
        }
        None
    }

    /// A spare level that stands for a comparison from now on. None where none is left.
    fn take_spare(&mut self, bound: GroundPhrase) -> Result<Option<u32>, NoMemory>
        requires { PhraseFits (length (cells self.old.base.spec)) bound }
        ensures extends { Extends self.old self.new }
        ensures first { unbounded self.new ≡ unbounded self.old }
        ensures few { length self.new.keyed ≤ length self.old.keyed + 1 }
        ensures level { IfOk result (λ found. IfSome found (StandsFor self.new bound)) }
    {
        match self.next_key() {
            None => Ok(None),
            Some(key) => {
                self.beside.push(bound)?;
                self.keyed.push(key)?;
                Ok(Some(key.level))
            }
        }
    }

    /// The next spare level, with the number of the next phrase.
    #[tactic(auto, using(crate::proofs::Bounds::next_is))]
    fn next_key(&self) -> Option<Keyed>
        ensures { IfSome result (IsNextKey self.now) }
    {
        let _ = &self.places;
        let level = *self.layout.free_levels().get(self.keyed.len())?;
        let phrase = number_after(self.macros.phrases(), self.beside.len())?;
        Some(Keyed { level, phrase })
    }

    /// Takes back all bounds: their levels are spare again.
    pub fn without_bounds(&mut self)
        ensures { self.new ≡ unbounded self.old }
    {
        self.beside.truncate(self.first_phrases);
        self.keyed.truncate(self.first_keys);
    }
}

/// The number after those of so many phrases and others beside them, if there is one.
fn number_after(phrases: u32, beside: usize) -> Option<u32>
    ensures { IfSome result (λ number. number ≡ phrases + beside) }
{
    match u32::try_from(beside) {
        Ok(beside) => phrases.checked_add(beside),
        Err(_) => None,
    }
}

/// For each of so many phrases the place of its key: the last, where it has several.
fn places_of(alloc: Global, phrases: u32, keyed: &[Keyed]) -> Result<Vec<Option<u32>>, NoMemory>
    requires phrases { All (λ k. k.phrase < phrases) keyed.now }
    requires few { length keyed.now ≤ 2 ^ 31 }
    ensures { IfOk result (λ places. (phrase place : ℕ) → slice_get places.items phrase ≡ Some (Some place)
        → IsKeyOf keyed.now phrase place) }
{
    let mut places = vec![in alloc; None; phrases as usize]?;
    for (place, key) in keyed.iter().enumerate() {
        places[key.phrase as usize] = Some(place as u32);
    }
    Ok(places)
}
