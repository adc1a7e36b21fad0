ghost use Rattle.std.specs.Prelude.{◌≡◌, [], ◌<◌, ◌↔◌, false, length, replicate, slice_set, IfOk, IsTrue};
ghost use Rattle.and_or_tables.specs.Ground.{known};

use rsml_syntax::NoMemory;
use std::alloc::Global;
use std::marker::Model;

/// The truths of phrases, by their numbers from 0. Contracts see them as a list.
#[derive(Debug, Drop)]
pub struct Truths {
    truths: Vec<bool>,
}

impl Model for Truths {
    ghost use Rattle.std.specs.Prelude.{◌^◌, ◌<◌, Bool, List, vec_len};

    ghost Value = { List Bool };

    ghost view = { λ t. t.truths.items };

    ghost invariant = { λ t. vec_len t.truths < 2 ^ 32 };
}

impl Truths {
    /// As many phrases, each of them false.
    pub fn new(alloc: Global, count: u32) -> Result<Truths, NoMemory>
        ensures { IfOk result (λ truths. truths ≡ replicate count false) }
    {
        let truths = Vec::from_elem(alloc, false, count as usize)?;
        Ok(Truths { truths })
    }

    /// How many phrases there are.
    pub fn len(&self) -> u32
        ensures { result ≡ length self.now }
    {
        self.truths.len() as u32
    }

    pub fn is_empty(&self) -> bool
        ensures { IsTrue result ↔ (self.now ≡ []) }
    {
        self.truths.is_empty()
    }

    /// The truth of a phrase.
    pub fn get(&self, phrase: u32) -> bool
        requires { phrase < length self.now }
        ensures { result ≡ known self.now phrase }
    {
        self.truths[phrase as usize]
    }

    /// Gives a phrase a truth. Every other phrase keeps its own, and no memory is taken.
    pub fn set(&mut self, phrase: u32, value: bool)
        requires { phrase < length self.old }
        ensures { self.new ≡ slice_set self.old phrase value }
    {
        self.truths[phrase as usize] = value;
    }
}
