//! The levels of a specification in an order.
ghost use Rattle.std.specs.Prelude.{◌≡◌, ◌+◌, IfOk, length};
ghost use Rattle.rsml_meaning.specs.Instances.{components};
ghost use Rattle.rsml_meaning.specs.Cells.{cells};
ghost use Rattle.world_levels.specs.Spelling.{IsLayout, free_from};
ghost use Rattle.world_levels.specs.Order.{free_count};

use crate::growing::{give_order, give_rest};
use crate::place::Place;
use crate::spans::spans;
use rsml_base::NoMemory;
use spelled_numbers::Slot;
use std::alloc::Global;
use worlds::Worlds;

/// The slots of all levels: those that the order names, and then those of the parts that it leaves out.
pub fn slots(
    alloc: Global,
    worlds: &Worlds<'_>,
    parts: u32,
    order: &[Place],
) -> Result<Vec<Slot>, NoMemory>
    requires { parts ≡ length (components worlds.now) + length (cells worlds.now) }
    ensures layout { IfOk result (λ slots. IsLayout worlds.now slots.items) }
    ensures free { IfOk result (λ slots. length (free_from slots.items 0) ≡ free_count order.now) }
{
    let mut left = spans(alloc, worlds, parts)?;
    let mut slots = Vec::new(alloc);
    give_order(&mut slots, &mut left, order)?;
    give_rest(&mut slots, &mut left, parts)?;
    Ok(slots)
}
