//! The numbers of parts in a world.
ghost use Rattle.std.specs.Prelude.{◌≡◌, length, slice_get, slice_index_or, zip};
ghost use Rattle.rsml_meaning.specs.Cells.{cells};
ghost use Rattle.rsml_meaning.specs.Worlds.{IsWorld};
ghost use Rattle.world_levels.specs.Spelling as spec;
ghost use Rattle.world_levels.specs.Spelling.{part_number};

use rsml_syntax::World;
use worlds::Worlds;

/// The number of a part in a world: the place of a component's child, or how far a cell's number is above its least.
pub fn number(worlds: &Worlds<'_>, world: &World, part: u32) -> u64
    requires { IsWorld worlds.now world.now }
    ensures { result ≡ part_number worlds.now world.now part }
{
    let components = worlds.tree().components();
    if part < components {
        choice(world.choices.as_slice(), part)
    } else {
        above_least(worlds, world.cells.as_slice(), part - components)
    }
}

/// The choice at a place.
fn choice(choices: &[u8], component: u32) -> u64
    ensures { result ≡ slice_index_or choices.now component 0 }
{
    match choices.get(component as usize) {
        Some(place) => u64::from(*place),
        None => 0,
    }
}

/// How far the number of a cell is above its least.
fn above_least(worlds: &Worlds<'_>, numbers: &[i64], cell: u32) -> u64
    requires { length numbers.now ≡ length (cells worlds.now) }
    ensures { result ≡ spec.above_least (slice_get (zip (cells worlds.now) numbers.now) cell) }
{
    match numbers.get(cell as usize) {
        Some(number) => number.abs_diff(worlds.low(cell)),
        None => 0,
    }
}
