ghost use Rattle.std.specs.Prelude.{◌≡◌, ◌&&◌, int_lt, int_le};

/// One number with each number of a list, which stands at a place among lists.
#[derive(Clone, Copy)]
pub struct Block {
    pub fixed: u32,
    pub list: u32,
}

/// The numbers above `low` and at most `high`.
#[derive(Clone, Copy, PartialEq, Eq, Hash)]
pub struct Range {
    pub low: i128,
    pub high: i128,
}

impl Range {
    /// Whether a number is within it.
    pub(crate) fn has(self, number: i128) -> bool
        ensures { result ≡ (int_lt self.low number && int_le number self.high) }
    {
        self.low < number && number <= self.high
    }
}
