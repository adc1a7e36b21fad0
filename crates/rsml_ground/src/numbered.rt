ghost use Rattle.std.specs.Prelude.{◌≡◌, [], ◌<◌, ◌^◌, IfOk, OnErr, length, slice_get, Some};
ghost use Rattle.rsml_ground.specs.Numbers.{HaveOneNumber, IsWith};

use crate::phrases::GroundPhrase;
use indexmap::IndexSet;
use rsml_syntax::NoMemory;
use std::alloc::Global;
use std::marker::Model;

/// Phrases with their places as their numbers, from 0. Equal phrases share one number. Contracts see them as a list.
#[derive(Drop)]
pub struct Phrases {
    set: IndexSet<GroundPhrase>,
}

impl Model for Phrases {
    ghost use Rattle.std.specs.Prelude.{List, length, ◌<◌, ◌^◌};
    ghost use Rattle.rsml_ground.specs.declared.phrases.GroundPhrase.{GroundPhrase};

    ghost Value = { List GroundPhrase };

    ghost view = { λ p. p.set.keys };

    ghost invariant = { λ p. length p.set.keys < 2 ^ 32 };
}

impl Phrases {
    /// No phrases.
    pub fn new(alloc: Global) -> Phrases
        ensures { result ≡ [] }
    {
        Phrases {
            set: IndexSet::new(alloc),
        }
    }

    /// How many there are.
    pub fn len(&self) -> u32
        ensures is { result ≡ length self.now }
        ensures shared { HaveOneNumber self.now }
    {
        self.set.len() as u32
    }

    /// The phrase of a number.
    pub fn get(&self, number: u32) -> &GroundPhrase
        requires { number < length self.now }
        ensures { slice_get self.now number ≡ Some result.now }
    {
        &self.set[number as usize]
    }

    /// The number of a phrase, which is added where it has none yet. Out of memory, the phrases are as before.
    pub fn add(&mut self, phrase: GroundPhrase) -> Result<u32, NoMemory>
        ensures number { IfOk result (λ k. slice_get self.new k ≡ Some phrase) }
        ensures ok { IfOk result (λ k. IsWith self.old phrase self.new) }
        ensures err { OnErr result (self.new ≡ self.old) }
    {
        if self.set.len() >= u32::MAX as usize {
            return Err(NoMemory);
        }
        let (place, _) = self.set.insert_full(phrase)?;
        Ok(place as u32)
    }
}
