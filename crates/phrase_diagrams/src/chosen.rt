//! Where a component has a state as its child.
ghost use Rattle.std.specs.Prelude.{◌≡◌, ◌<◌, length, slice_get, Some, IfOk};
ghost use Rattle.rsml_syntax.specs.limits.Checked.{IsChecked};
ghost use Rattle.rsml_meaning.specs.Instances.{Component, states, components};
ghost use Rattle.bdd_core.specs.Calls.{Keeps};
ghost use Rattle.phrase_diagrams.specs.Tells.{Tells};
ghost use Rattle.rsml_ground.specs.Children.{IsPlaceOf, has_child};
ghost use Rattle.phrase_diagrams.specs.Active.{SpellChoices};

use crate::choice;
use bdd_core::{Arena, Ref};
use rsml_base::NoMemory;
use spelled_numbers::SumTable;
use state_tree::Tree;
use world_levels::Layout;

/// The place that a state has among the children of a component, if it is one of them.
fn place_of(tree: &Tree<'_>, component: u32, node: u32) -> Option<u8>
    requires checked { IsChecked tree.now }
    requires component { component < length (components tree.now) }
    ensures { (c : Component) → slice_get (components tree.now) component ≡ Some c
        → IsPlaceOf tree.now c node result }
{
    for place in 0..tree.children(component) {
        if tree.child(component, place) == node {
            return Some(place);
        }
    }
    None
}

/// Where a component has this state as its child. Nowhere, where it is none of the children.
pub fn where_chosen(
    arena: &mut Arena,
    sums: &mut SumTable,
    layout: &Layout<'_>,
    tree: &Tree<'_>,
    component: u32,
    node: u32,
) -> Result<Ref, NoMemory>
    requires tree { tree.now ≡ layout.now.spec }
    requires checked { IsChecked tree.now }
    requires choices { SpellChoices tree.now layout.now }
    requires levels { arena.old.levels ≡ length layout.now.slots }
    requires component { component < length (components tree.now) }
    requires node { node < length (states tree.now) }
    ensures keeps { Keeps arena.old arena.new }
    ensures answer { IfOk result (Tells arena.new layout.now (λ w. has_child tree.now w component node)) }
{
    match place_of(tree, component, node) {
        Some(place) => choice(arena, sums, layout, component, place),
        None => Ok(arena.constant(false)),
    }
}
