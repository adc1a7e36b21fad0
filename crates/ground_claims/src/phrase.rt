ghost use Rattle.std.specs.Prelude.{◌≡◌, ◌<◌, All, length};
ghost use Rattle.std.specs.List.{list_any, list_all};
ghost use Rattle.rsml_meaning.specs.Instances.{states};
ghost use Rattle.state_tree.specs.Numbers.{AreChoices};
ghost use Rattle.rsml_ground.specs.Truths as spec;
ghost use Rattle.ground_claims.specs.Truths.{phrase_truth};
ghost use Rattle.ground_claims.specs.StandsFor.{AreStates};

use rsml_syntax::{List, World};
use state_tree::Tree;

/// What a row of a claim asks of states, which are given by their numbers.
#[derive(Drop)]
pub enum StatePhrase {
    /// Each of these states is active.
    Every(List<u32>),
    /// Some of these states is active.
    Any(List<u32>),
}

impl StatePhrase {
    /// Whether it is true in a world.
    pub fn truth(&self, tree: &Tree<'_>, world: &World) -> bool
        requires choices { AreChoices tree.now world.now.choices }
        requires there { AreStates tree.now self.now }
        ensures { result ≡ phrase_truth (spec.is_active tree.now world.now) self.now }
    {
        match self {
            StatePhrase::Every(nodes) => every_active(tree, world, nodes.as_slice()),
            StatePhrase::Any(nodes) => any_active(tree, world, nodes.as_slice()),
        }
    }
}

/// Whether each of these states is active.
fn every_active(tree: &Tree<'_>, world: &World, nodes: &[u32]) -> bool
    requires choices { AreChoices tree.now world.now.choices }
    requires there { All (λ node. node < length (states tree.now)) nodes.now }
    ensures { result ≡ list_all (spec.is_active tree.now world.now) nodes.now }
{
    for node in nodes {
        if !is_active(tree, world, *node) {
            return false;
        }
    }
    true
}

/// Whether some of these states is active.
fn any_active(tree: &Tree<'_>, world: &World, nodes: &[u32]) -> bool
    requires choices { AreChoices tree.now world.now.choices }
    requires there { All (λ node. node < length (states tree.now)) nodes.now }
    ensures { result ≡ list_any (spec.is_active tree.now world.now) nodes.now }
{
    for node in nodes {
        if is_active(tree, world, *node) {
            return true;
        }
    }
    false
}

/// Whether a state is active.
fn is_active(tree: &Tree<'_>, world: &World, node: u32) -> bool
    requires choices { AreChoices tree.now world.now.choices }
    requires node { node < length (states tree.now) }
    ensures { result ≡ spec.is_active tree.now world.now node }
{
    tree.active(world.choices.as_slice(), node)
}
