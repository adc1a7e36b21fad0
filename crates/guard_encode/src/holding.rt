//! Whether functions are true of one world.
ghost use Rattle.std.specs.Prelude.{◌≡◌, ◌==◌, ◌<◌, Bool, find, length};
ghost use Rattle.rsml_syntax.specs.declared.world.World.{World as WorldValue};
ghost use Rattle.rsml_meaning.specs.Worlds.{IsWorld};
ghost use Rattle.bdd_core.specs.Diagram.{IsRef, meaning};
ghost use Rattle.guard_encode.specs.Encoding.{Tells};
ghost use Rattle.guard_encode.specs.Holding as spec;

use crate::comparing::is_true;
use crate::encoder::Encoder;
use bdd_core::{Arena, Ref};
use keyed_levels::{Keyed, KeyedLevels};
use rsml_syntax::World;
use world_levels::world_laws;

impl<'m, 'a> Encoder<'m, 'a> {
    /// Whether what `f` tells is true of a world. It takes no memory.
    pub fn holds(&self, f: Ref, world: &World) -> bool
        requires f_ref { IsRef self.now.diagram f }
        requires world { IsWorld self.now.machine.base.spec world.now }
        ensures { (truth : WorldValue → Bool) → Tells self.now truth f → result ≡ truth world.now }
    {
        world_laws();
        walk(&self.arena, &self.levels, f, world)
    }
}

/// The value of a function where the levels spell a world: down from its node, at each by the value of the level.
fn walk(arena: &Arena, levels: &KeyedLevels<'_, '_>, f: Ref, world: &World) -> bool
    requires f_ref { IsRef arena.now f }
    requires room { arena.now.levels ≡ length levels.now.slots }
    requires world { IsWorld levels.now.base.spec world.now }
    ensures { result ≡ meaning arena.now f (spec.values_in levels.now world.now) }
{
    let mut at = f;
    while let Some(node) = arena.branch(at) {
        at = if value(levels, world, node.level) {
            node.high
        } else {
            node.low
        };
    }
    arena.is_true(at)
}

/// The value of a level where a world is spelled and each comparison has its truth.
fn value(levels: &KeyedLevels<'_, '_>, world: &World, level: u32) -> bool
    requires world { IsWorld levels.now.base.spec world.now }
    requires level { level < length levels.now.slots }
    ensures { result ≡ spec.values_in levels.now world.now level }
{
    world_laws();
    let layout = levels.layout();
    if layout.free_levels().contains(&level) {
        key_truth(levels, world, level)
    } else {
        layout.is_true(world, level)
    }
}

/// The truth of the comparison for which a level stands. False where it stands for none.
fn key_truth(levels: &KeyedLevels<'_, '_>, world: &World, level: u32) -> bool
    requires { IsWorld levels.now.base.spec world.now }
    ensures { result ≡ spec.key_truth levels.now world.now level }
{
    match key_of(levels.keys(), level) {
        Some(key) => is_true(levels, world, key.phrase),
        None => false,
    }
}

/// The key of a level. None where it has none.
fn key_of(keys: &[Keyed], level: u32) -> Option<Keyed>
    ensures { result ≡ find (λ x. x.level == level) keys.now }
{
    keys.iter().copied().find(|key| key.level == level)
}
