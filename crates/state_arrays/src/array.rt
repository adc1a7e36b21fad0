ghost use Rattle.std.specs.Prelude.{◌≡◌, ◌≤◌};
ghost use Rattle.state_arrays.specs.Ranges.{place_from, range};
ghost use Rattle.state_arrays.specs.declared.array.TheConstants.{GREATEST_FIRST};

use crate::index_range::IndexRange;

/// The greatest place of a first instance: the places of those behind it fit a `u32`.
pub const GREATEST_FIRST: u32 = u32::MAX - 256;

/// The instances of one name: the place of the first, and their indices.
#[derive(Clone, Copy)]
pub struct Array {
    pub first: u32,
    pub indices: IndexRange,
    ghost room: { first ≤ GREATEST_FIRST },
}

impl Array {
    /// The place of the instance of an index.
    pub fn place(self, index: u8) -> Option<u32>
        ensures { result ≡ place_from self.first (range self.indices.low self.indices.high) index }
    {
        let place = self.indices.place(index)?;
        Some(self.first + place)
    }
}
