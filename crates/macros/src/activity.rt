ghost use Rattle.std.specs.Prelude.{◌≡◌};
ghost use Rattle.rsml_meaning.specs.Worlds.{IsWorld};
ghost use Rattle.rsml_ground.specs.Truths as spec;

use rsml_syntax::World;
use state_tree::Tree;

/// Whether the state of a number is active. A number that no state has counts as active.
pub fn is_active(tree: &Tree<'_>, world: &World, node: u32) -> bool
    requires { IsWorld tree.now world.now }
    ensures { result ≡ spec.is_active tree.now world.now node }
{
    node >= tree.nodes() || tree.active(world.choices.as_slice(), node)
}
