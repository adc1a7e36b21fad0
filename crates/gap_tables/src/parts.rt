//! The parts of a world.
ghost use Rattle.std.specs.Prelude.{◌≡◌, ◌<◌, length};
ghost use Rattle.gap_tables.specs.Widening.{child_at, number_at};

use rsml_syntax::World;

/// The child that a component has.
pub(crate) fn child_in(world: &World, component: u32) -> u8
    requires { component < length world.now.choices }
    ensures { result ≡ child_at component world.now }
{
    world.choices.as_slice()[component as usize]
}

/// The number that a cell holds.
pub(crate) fn number_in(world: &World, cell: u32) -> i64
    requires { cell < length world.now.cells }
    ensures { result ≡ number_at cell world.now }
{
    world.cells.as_slice()[cell as usize]
}
