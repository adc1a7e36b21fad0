ghost use Rattle.std.specs.Prelude.{◌≡◌, ◌≢◌, ℕ, ◌<◌, ◌≤◌, ◌==◌, ◌||◌, ◌&&◌, true, false, IsTrue, ◌↔◌, IfSome, None};
ghost use Rattle.event_graph.specs.Sets.{has};

/// How many words a set has.
const WORDS: usize = 16;

/// How many events a set has at most.
const MOST: usize = 1024;

/// A set of events, the numbers below 1,024.
#[derive(Clone, Copy)]
pub struct Events {
    pub words: [u64; 16],
}

impl Events {
    /// No events.
    pub fn new() -> Events
        ensures { (q : ℕ) → has result q ≡ false }
    {
        Events { words: [0; 16] }
    }

    /// Takes all events out.
    pub fn clear(&mut self)
        ensures { (q : ℕ) → has self.new q ≡ false }
    {
        self.words = [0; 16];
    }

    /// Whether an event is in the set.
    pub fn has(&self, event: usize) -> bool
        requires { event < 1024 }
        ensures { result ≡ has self.now event }
    {
        (self.words[event / 64] >> (event % 64)) & 1 == 1
    }

    /// Puts an event in.
    pub fn put(&mut self, event: usize)
        requires { event < 1024 }
        ensures { (q : ℕ) → has self.new q ≡ (has self.old q || event == q) }
    {
        self.words[event / 64] |= 1 << (event % 64);
    }

    /// Puts the events of another set in.
    pub fn join(&mut self, other: &Events)
        ensures { (q : ℕ) → has self.new q ≡ (has self.old q || has other.now q) }
    {
        for place in 0..WORDS {
            self.words[place] |= other.words[place];
        }
    }

    /// The events that both sets have.
    pub fn common(&self, other: &Events) -> Events
        ensures { (q : ℕ) → has result q ≡ (has self.now q && has other.now q) }
    {
        let mut both = *self;
        for place in 0..WORDS {
            both.words[place] &= other.words[place];
        }
        both
    }

    /// Whether the other set has each of these events.
    pub fn is_within(&self, other: &Events) -> bool
        ensures { IsTrue result ↔ ((q : ℕ) → has self.now q ≡ true → has other.now q ≡ true) }
    {
        for place in 0..WORDS {
            if self.words[place] | other.words[place] != other.words[place] {
                return false;
            }
        }
        true
    }

    /// The least event of the set that is not below a number.
    pub fn next(&self, from: usize) -> Option<usize>
        ensures some { IfSome result (λ e. (from ≤ e) × (e < 1024) × (has self.now e ≡ true)
            × ((q : ℕ) → from ≤ q → q < e → has self.now q ≡ false)) }
        ensures none { result ≡ None → (q : ℕ) → from ≤ q → has self.now q ≡ false }
    {
        self.next_below(from, MOST)
    }

    /// The same where all events of the set are below an end: where none comes before that, there is none. It looks at no words
    /// behind the end.
    pub fn next_below(&self, from: usize, end: usize) -> Option<usize>
        requires { end ≤ 1024 }
        ensures some { IfSome result (λ e. (from ≤ e) × (e < 1024) × (has self.now e ≡ true)
            × ((q : ℕ) → from ≤ q → q < e → has self.now q ≡ false)) }
        ensures none { result ≡ None → (q : ℕ) → from ≤ q → q < end → has self.now q ≡ false }
    {
        let mut at = from;
        while at < end {
            let rest = self.words[at / 64] >> (at % 64);
            if rest != 0 {
                return Some(at + rest.trailing_zeros() as usize);
            }
            at = (at / 64 + 1) * 64;
        }
        None
    }
}
