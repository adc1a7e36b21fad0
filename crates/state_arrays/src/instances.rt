ghost use Rattle.std.specs.Prelude.{◌≡◌, ◌<◌, [], ◌++◌, IfOk, IfSome, false, length, map};
ghost use Rattle.rsml_meaning.specs.Words.{at, place_in};
ghost use Rattle.state_arrays.specs.Arrays.{has_name};
ghost use Rattle.state_arrays.specs.Ranges.{range};

use crate::array::{Array, GREATEST_FIRST};
use crate::index_range::IndexRange;
use indexmap::IndexMap;
use rsml_syntax::NoMemory;
use std::alloc::Global;
use std::marker::Model;

/// Instances in order, those of one name one after another, with the place of each.
#[derive(Drop)]
pub struct Instances<'a> {
    arrays: IndexMap<&'a [u8], Array>,
    count: u32,
}

impl<'a> Model for Instances<'a> {
    ghost use Rattle.std.specs.Prelude.{List};
    ghost use Rattle.rsml_meaning.specs.Words.{Instance};
    ghost use Rattle.state_arrays.specs.Arrays.{instances_of, AreFound};

    ghost Value = { List Instance };

    ghost view = { λ n. instances_of n.arrays.entries };

    ghost invariant = { λ n. AreFound n.arrays n.count };
}

impl<'a> Instances<'a> {
    /// No instances.
    pub fn new(alloc: Global) -> Instances<'a>
        ensures { result ≡ [] }
    {
        Instances {
            arrays: IndexMap::new(alloc),
            count: 0,
        }
    }

    /// How many there are.
    pub fn count(&self) -> u32
        ensures { result ≡ length self.now }
    {
        self.count
    }

    /// The place of the instance of a name at an index.
    pub fn place(&self, name: &[u8], index: u8) -> Option<u32>
        ensures at { result ≡ place_in self.now (at name.now index) }
        ensures within { IfSome result (λ place. place < length self.now) }
    {
        match self.arrays.get(name) {
            Some(array) => array.place(index),
            None => None,
        }
    }

    /// These instances, and behind them those of one more name. NoMemory also where there are so many
    /// that a place would not fit a `u32`.
    pub fn with(self, name: &'a [u8], indices: IndexRange) -> Result<Instances<'a>, NoMemory>
        requires { has_name self name.now ≡ false }
        ensures { IfOk result (λ r.
            r ≡ self.entry ++ map (at name.now) (range indices.low indices.high)) }
    {
        let Instances { mut arrays, count } = self;
        if count > GREATEST_FIRST {
            return Err(NoMemory);
        }
        let array = Array {
            first: count,
            indices,
        };
        arrays.insert(name, array)?;
        Ok(Instances {
            arrays,
            count: count + indices.count(),
        })
    }
}
