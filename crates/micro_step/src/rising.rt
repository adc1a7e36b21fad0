ghost use Rattle.std.specs.Prelude.{◌≡◌, ◌<◌, ◌==◌, ◌||◌, ℕ, [], true, length, IfErr, IfOk, Some, slice_get};
ghost use Rattle.rsml_meaning.specs.Words.{Each};
ghost use Rattle.micro_step.specs.Rising.{AreRising, IsPlaceFor, among};

use rsml_syntax::NoMemory;
use std::alloc::Global;
use std::marker::Model;

/// Rising numbers below a bound. Only `new` takes memory.
#[derive(Drop)]
pub struct Rising {
    items: Vec<u32>,
    bound: u32,
}

impl Model for Rising {
    ghost use Rattle.std.specs.Prelude.{vec_capacity};
    ghost use Rattle.micro_step.specs.Rising.{AreKept, Numbers};

    ghost Value = { Numbers };

    ghost view = { λ r. record { below = r.bound; items = r.items.items } };

    ghost invariant = { λ r. AreKept r.items.items r.bound (vec_capacity r.items) };
}

/// Whether a number is above all of rising ones.
fn is_above(number: u32, items: &[u32]) -> bool
    requires { AreRising items.now }
    ensures { result ≡ true → IsPlaceFor items.now (length items.now) number }
{
    match items.last() {
        Some(last) => *last < number,
        None => true,
    }
}

/// The place of a number among rising ones, or else the one where it is to stand.
fn place_of(items: &[u32], number: u32) -> Result<usize, usize>
    requires { AreRising items.now }
    ensures there { IfOk result (λ place. slice_get items.now place ≡ Some number) }
    ensures new { IfErr result (λ place. IsPlaceFor items.now place number) }
{
    items.binary_search(&number)
}

impl Rising {
    /// No numbers, with room for all below the bound.
    pub fn new(alloc: Global, bound: u32) -> Result<Rising, NoMemory>
        ensures { IfOk result (λ r. r ≡ record { below = bound; items = [] }) }
    {
        let items = Vec::with_capacity(alloc, bound as usize)?;
        Ok(Rising { items, bound })
    }

    /// Takes all numbers out.
    pub fn clear(&mut self)
        ensures { self.new ≡ record { below = self.old.below; items = [] } }
    {
        self.items.clear();
    }

    /// Puts a number in its place. Above all others that is found at once.
    pub fn put(&mut self, number: u32)
        requires { number < self.old.below }
        ensures below { self.new.below ≡ self.old.below }
        ensures among { (q : ℕ) → among self.new.items q ≡ (among self.old.items q || number == q) }
        ensures rising { AreRising self.new.items }
    {
        let _ = &self.bound;
        if is_above(number, self.items.as_slice()) {
            self.items.push_reserved(number);
            return;
        }
        self.insert(number);
    }

    /// Puts a number in its place, which is looked for by halves.
    fn insert(&mut self, number: u32)
        requires { number < self.old.below }
        ensures below { self.new.below ≡ self.old.below }
        ensures among { (q : ℕ) → among self.new.items q ≡ (among self.old.items q || number == q) }
        ensures rising { AreRising self.new.items }
    {
        let _ = &self.bound;
        match place_of(self.items.as_slice(), number) {
            Ok(_) => {}
            Err(place) => self.items.insert(place, number).unwrap(),
        }
    }

    /// The numbers.
    pub fn as_slice(&self) -> &[u32]
        ensures value { result.now ≡ self.now.items }
        ensures rising { AreRising self.now.items }
        ensures under { Each (λ k. k < self.now.below) self.now.items }
    {
        let _ = &self.bound;
        self.items.as_slice()
    }
}
