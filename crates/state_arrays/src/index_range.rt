ghost use Rattle.std.specs.Prelude.{◌≡◌, ◌≤◌, IfSome, length, nat_eq};
ghost use Rattle.std.specs.Option.{option_copied};
ghost use Rattle.std.specs.List.{position_from};
ghost use Rattle.rsml_syntax.specs.rules.Globals as globals_of;
ghost use Rattle.state_arrays.specs.Ranges.{range};

use rsml_names::Globals;
use rsml_syntax::Amount;

/// The indices of what is declared under one name: 1 to its size, or 0 alone where it has none.
#[derive(Clone, Copy)]
pub struct IndexRange {
    pub low: u8,
    pub high: u8,
    ghost some: { low ≤ high },
}

impl IndexRange {
    /// The indices of this size.
    pub fn new(globals: &Globals<'_>, size: Option<&Amount>) -> IndexRange
        requires some { 1 ≤ globals_of.many globals.now (option_copied size) }
        requires few { globals_of.many globals.now (option_copied size) ≤ 64 }
        ensures { range result.low result.high
            ≡ globals_of.indices globals.now (option_copied size.entry) }
    {
        match size {
            None => IndexRange { low: 0, high: 0 },
            Some(_) => IndexRange {
                low: 1,
                high: globals.many(size) as u8,
            },
        }
    }

    /// How many there are.
    pub fn count(self) -> u32
        ensures is { result ≡ length (range self.low self.high) }
        ensures small { result ≤ 256 }
    {
        u32::from(self.high - self.low) + 1
    }

    /// The place of an index among them.
    pub fn place(self, index: u8) -> Option<u32>
        ensures at { result ≡ position_from (nat_eq index) 0 (range self.low self.high) }
        ensures small { IfSome result (λ place. place ≤ 255) }
    {
        if self.low <= index && index <= self.high {
            Some(u32::from(index - self.low))
        } else {
            None
        }
    }
}
