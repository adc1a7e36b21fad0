ghost use Rattle.std.specs.Prelude.{◌≡◌, ◌+◌, ◌<◌, ℕ, Bool, IfOk, Some, false, length, slice_get};
ghost use Rattle.rsml_meaning.specs.Instances.{components};
ghost use Rattle.rsml_meaning.specs.Cells.{InputCell, cells};
ghost use Rattle.rsml_meaning.specs.Worlds.{IsWorld};
ghost use Rattle.spelled_numbers.specs.Spelling.{IsLevelOf};
ghost use Rattle.spelled_numbers.specs.Bits.{bits_of};
ghost use Rattle.world_levels.specs.Spelling.{IsLayout, free_from, spelled_world};
ghost use Rattle.world_levels.specs.Order.{free_count};

use crate::building::slots;
use crate::numbers::number;
use crate::place::Place;
use crate::spans::parts;
use crate::tables::{bits, free_levels};
use rsml_base::{List, NoMemory};
use rsml_syntax::World;
use spelled_numbers::{Slot, Weighted, digit};
use std::alloc::Global;
use std::marker::Model;
use worlds::Worlds;

/// The levels of the worlds of a specification. Contracts see them as the specification and the slots of the levels.
pub struct Layout<'a> {
    worlds: &'a Worlds<'a>,
    parts: u32,
    slots: Vec<Slot>,
    free: Vec<u32>,
    bits: Vec<List<Weighted>>,
}

impl Drop for Layout<'_> {
    fn drop(self) {
        let Self {
            worlds: _,
            parts: _,
            slots: _,
            free: _,
            bits: _,
        } = self;
    }
}

impl<'a> Model for Layout<'a> {
    ghost use Rattle.std.specs.Coded.{codes};
    ghost use Rattle.rsml_syntax.specs.contracts.syntax.Body as bodies;
    ghost use Rattle.world_levels.specs.Spelling.{WorldLevels};
    ghost use Rattle.world_levels.specs.Stored.{IsStored};

    ghost Value = { WorldLevels };

    ghost coded = { Prim.hlevel (codes, bodies.the_row.coded) };

    ghost view = { λ l. record { spec = l.worlds.now; slots = l.slots.items } };

    ghost invariant = { λ l. IsStored l.worlds.now l.parts l.slots.items l.free.items l.bits.items };
}

impl<'a> Layout<'a> {
    /// Levels for the worlds of a specification, in this order: a part takes its levels where it is named first. What is no
    /// part is left out, and parts that are not named come last. NoMemory also where there would be more than 2^31 levels,
    /// whose slots would be 48 GB, or a number further from 0 than 1,000,000,000 in a cell.
    pub fn new(
        alloc: Global,
        worlds: &'a Worlds<'_>,
        order: &[Place],
    ) -> Result<Layout<'a>, NoMemory>
        ensures spec { IfOk result (λ l. l.spec ≡ worlds.now) }
        ensures free { IfOk result (λ l. length (free_from l.slots 0) ≡ free_count order.now) }
    {
        let parts = parts(worlds)?;
        let slots = slots(alloc, worlds, parts, order)?;
        let free = free_levels(alloc, slots.as_slice())?;
        let bits = bits(alloc, slots.as_slice(), parts)?;
        Ok(Layout {
            worlds,
            parts,
            slots,
            free,
            bits,
        })
    }

    /// The weights of each part cover, and sum to its greatest number.
    pub fn law(&self)
        ensures { IsLayout self.now.spec self.now.slots }
    {
        let _ = &self.slots;
    }

    /// How many levels there are.
    pub fn levels(&self) -> u32
        ensures { result ≡ length self.now.slots }
    {
        self.slots.len() as u32
    }

    /// The free levels, rising.
    pub fn free_levels(&self) -> &[u32]
        ensures { result.now ≡ free_from self.now.slots 0 }
    {
        self.free.as_slice()
    }

    /// How many components there are.
    pub fn components(&self) -> u32
        ensures { result ≡ length (components self.now.spec) }
    {
        self.worlds.tree().components()
    }

    /// How many cells there are.
    pub fn cells(&self) -> u32
        ensures { result ≡ length (cells self.now.spec) }
    {
        self.parts - self.worlds.tree().components()
    }

    /// The least number of a cell.
    pub fn low(&self, cell: u32) -> i64
        requires { cell < length (cells self.now.spec) }
        ensures { (c : InputCell) → slice_get (cells self.now.spec) cell ≡ Some c → result ≡ c.numbers.low }
    {
        self.worlds.low(cell)
    }

    /// The levels of a part with their weights. The parts are the components and then the cells.
    pub fn bits(&self, part: u32) -> &[Weighted]
        requires { part < length (components self.now.spec) + length (cells self.now.spec) }
        ensures { result.now ≡ bits_of part false self.now.slots 0 }
    {
        self.bits[part as usize].as_slice()
    }

    /// Whether a level is true where a world is spelled. It takes no memory.
    pub fn is_true(&self, world: &World, level: u32) -> bool
        requires world { IsWorld self.now.spec world.now }
        requires part { (p : ℕ) × IsLevelOf p self.now.slots level }
        ensures { (free : ℕ → Bool) → result ≡ spelled_world self.now.spec self.now.slots world.now free level }
    {
        match self.slots[level as usize] {
            Slot::Part { part, .. } => {
                let number = number(self.worlds, world, part);
                digit(self.slots.as_slice(), part, level as usize, number)
            }
            Slot::Free => false,
        }
    }
}
