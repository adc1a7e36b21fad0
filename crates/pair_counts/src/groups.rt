ghost use Rattle.std.specs.Prelude.{◌≡◌, ℕ, ◌==◌, ◌++◌, [], ◌∷◌, if◌then◌else◌};
ghost use Rattle.std.specs.Prelude.{IfOk, OnOk, map, nat_eq};
ghost use Rattle.std.specs.List.{IsDistinct};
ghost use Rattle.std.specs.Map.{lookup};
ghost use Rattle.std.specs.Option.{option_map};
ghost use Rattle.pair_counts.specs.Grouped.{places_of, places_at};

use crate::blocks::Block;
use indexmap::IndexMap;
use indexmap::map::Iter;
use rsml_base::NoMemory;
use std::alloc::Global;
use std::marker::Model;

/// Blocks by their fixed numbers: each number with the places of its lists, in the order of the
/// blocks.
#[derive(Drop)]
pub struct Groups {
    places: IndexMap<u32, Vec<u32>>,
}

impl Model for Groups {
    ghost use Rattle.std.specs.Prelude.{ℕ, List, map};

    ghost Value = { List (ℕ × List ℕ) };

    ghost view = { λ g. map (λ e. (e.0, e.1.items)) g.places.entries };
}

impl Groups {
    /// The groups of blocks.
    pub fn new(alloc: Global, blocks: &[Block]) -> Result<Groups, NoMemory>
        ensures { IfOk result (λ groups.
            (fixed : ℕ) → places_at groups fixed ≡ places_of blocks.now fixed) }
    {
        let mut groups = Groups {
            places: IndexMap::new(alloc),
        };
        for block in blocks {
            groups.put(alloc, *block)?;
        }
        Ok(groups)
    }

    // One more block.
    fn put(&mut self, alloc: Global, block: Block) -> Result<(), NoMemory>
        ensures { OnOk result ((fixed : ℕ) → places_at self.new fixed
            ≡ places_at self.old fixed ++ (if fixed == block.fixed then block.list ∷ [] else [])) }
    {
        let places = self.places.entry(block.fixed)?.or_insert(Vec::new(alloc));
        places.push(block.list)?;
        Ok(())
    }

    /// The places of a number.
    pub fn get(&self, fixed: u32) -> Option<&[u32]>
        ensures { option_map (λ places. places.now) result ≡ lookup (nat_eq fixed) self.now }
    {
        Some(self.places.get(&fixed)?.as_slice())
    }

    /// The numbers with their places.
    pub fn iter(&self) -> Iter<'_, u32, Vec<u32>>
        ensures groups { map (λ e. (e.0, e.1.items)) result ≡ self.now }
        ensures differ { IsDistinct nat_eq (map (λ g. g.0) self.now) }
    {
        self.places.iter()
    }
}
