//! Where states are active.
ghost use Rattle.std.specs.Prelude.{◌≡◌, ℕ, ◌<◌, length, slice_get, Some, IfOk};
ghost use Rattle.rsml_syntax.specs.limits.Checked.{IsChecked};
ghost use Rattle.rsml_meaning.specs.Instances.{states};
ghost use Rattle.rsml_ground.specs.Truths.{is_active};
ghost use Rattle.bdd_core.specs.Calls.{Keeps};
ghost use Rattle.phrase_diagrams.specs.Tells.{Tells};
ghost use Rattle.phrase_diagrams.specs.Active.{AreActive, SpellChoices};

use crate::chosen::where_chosen;
use bdd_core::{Arena, Ref};
use rsml_base::NoMemory;
use spelled_numbers::SumTable;
use state_tree::Tree;
use std::alloc::Global;
use world_levels::{Layout, world_laws};

/// For each state, in the order of their numbers, the diagram of the worlds in which it is active.
pub fn active_states(
    alloc: Global,
    arena: &mut Arena,
    sums: &mut SumTable,
    layout: &Layout<'_>,
    tree: &Tree<'_>,
) -> Result<Vec<Ref>, NoMemory>
    requires tree { tree.now ≡ layout.now.spec }
    requires checked { IsChecked tree.now }
    requires levels { arena.old.levels ≡ length layout.now.slots }
    ensures keeps { Keeps arena.old arena.new }
    ensures many { IfOk result (λ active. length active.items ≡ length (states tree.now)) }
    ensures each { IfOk result (λ active. (node : ℕ) (f : ℕ) → slice_get active.items node ≡ Some f
        → Tells arena.new layout.now (λ w. is_active tree.now w node) f) }
{
    layout.law();
    world_laws();
    let mut active = Vec::new(alloc);
    for node in 0..tree.nodes() {
        let diagram = active_state(arena, sums, layout, tree, active.as_slice(), node)?;
        active.push(diagram)?;
    }
    Ok(active)
}

/// Where a state is active, by the diagrams of the states before it. A state stands behind the one
/// around it.
fn active_state(
    arena: &mut Arena,
    sums: &mut SumTable,
    layout: &Layout<'_>,
    tree: &Tree<'_>,
    before: &[Ref],
    node: u32,
) -> Result<Ref, NoMemory>
    requires tree { tree.now ≡ layout.now.spec }
    requires checked { IsChecked tree.now }
    requires choices { SpellChoices tree.now layout.now }
    requires levels { arena.old.levels ≡ length layout.now.slots }
    requires node { node < length (states tree.now) }
    requires many { length before.now ≡ node }
    requires each { AreActive arena.old layout.now tree.now before.now }
    ensures keeps { Keeps arena.old arena.new }
    ensures answer { IfOk result (Tells arena.new layout.now (λ w. is_active tree.now w node)) }
{
    let Some(outer) = tree.parent(node) else {
        return Ok(arena.constant(true));
    };
    let around = before[outer as usize];
    let Some(component) = tree.component_of(outer) else {
        return Ok(around);
    };
    let chosen = where_chosen(arena, sums, layout, tree, component, node)?;
    arena.and(around, chosen)
}
