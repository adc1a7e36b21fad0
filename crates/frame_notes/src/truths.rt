//! The truths of phrases in a world.
ghost use Rattle.std.specs.Prelude.{IsTrue};
ghost use Rattle.rsml_meaning.specs.Worlds.{IsWorld};

use and_or_tables::Truths;
use elaborate::Machine;
use rsml_base::NoMemory;
use rsml_syntax::World;
use std::alloc::Global;

/// Whether a world is one of the specification.
pub fn is_world(machine: &Machine<'_>, world: &World) -> bool
    ensures { IsTrue result → IsWorld machine.now.base.spec world.now }
{
    machine.worlds().fits(world)
}

/// The truths of all phrases in a world of the specification.
pub fn filled(alloc: Global, machine: &Machine<'_>, world: &World) -> Result<Truths, NoMemory>
    requires { IsWorld machine.now.base.spec world.now }
{
    let macros = machine.macros();
    let mut truths = Truths::new(alloc, macros.phrases())?;
    macros.fill(machine.tree(), world, &mut truths);
    Ok(truths)
}
