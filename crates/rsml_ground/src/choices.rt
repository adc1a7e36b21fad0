ghost use Rattle.std.specs.Prelude.{◌≡◌, ◌<◌, ◌==◌, ◌&&◌, ◌++◌, All, IfOk, OnOk, Some, length, slice_index_or};
ghost use Rattle.rsml_syntax.specs.declared.world.World.{World};
ghost use Rattle.rsml_syntax.specs.limits.Checked.{IsChecked};
ghost use Rattle.rsml_meaning.specs.Instances.{components, states};
ghost use Rattle.state_tree.specs.nodes.Numbers.{IsPlace, component_at, path_around, paths};
ghost use Rattle.state_tree.specs.Numbers.{AreChoices};
ghost use Rattle.rsml_ground.specs.Truths.{is_active};
ghost use Rattle.rsml_ground.specs.Choices as spec;
ghost use Rattle.rsml_ground.specs.Choices.{AreOfComponents, TellActivity, some_choice};

use rsml_syntax::NoMemory;
use state_tree::Tree;
use std::alloc::Global;

/// A child of a component, by its place.
#[derive(Clone, Copy)]
pub struct Choice {
    pub component: u32,
    pub child: u8,
}

/// The place of a state among the children of the component around it. Where it is none of them, as many as there are children.
fn place_of(tree: &Tree<'_>, component: u32, outer: u32, node: u32) -> u8
    requires checked { IsChecked tree.now }
    requires component { component < length (components tree.now) }
    requires node { node < length (states tree.now) }
    requires outer { IsPlace (paths (states tree.now)) (path_around (states tree.now) node) (Some outer) }
    requires here { IsPlace (components tree.now) (component_at (states tree.now) outer) (Some component) }
    ensures { (w : World) → AreChoices tree.now w.choices → is_active tree.now w node
        ≡ (is_active tree.now w outer && slice_index_or w.choices component 0 == result) }
{
    let many = tree.children(component);
    for place in 0..many {
        if tree.child(component, place) == node {
            return place;
        }
    }
    many
}

/// The child that the state around a state must have for that to be active. None where the state around is no component.
fn choice_for(tree: &Tree<'_>, outer: u32, node: u32) -> Option<Choice>
    requires checked { IsChecked tree.now }
    requires node { node < length (states tree.now) }
    requires outer { IsPlace (paths (states tree.now)) (path_around (states tree.now) node) (Some outer) }
    ensures active { (w : World) → AreChoices tree.now w.choices → is_active tree.now w node
        ≡ (is_active tree.now w outer && spec.are_chosen w.choices (some_choice result)) }
    ensures component { AreOfComponents tree.now (some_choice result) }
{
    let Some(component) = tree.component_of(outer) else {
        return None;
    };
    let child = place_of(tree, component, outer, node);
    Some(Choice { component, child })
}

/// Puts a choice behind others, where there is one.
fn put(choices: &mut Vec<Choice>, choice: Option<Choice>) -> Result<(), NoMemory>
    ensures { OnOk result (choices.new.items ≡ choices.old.items ++ some_choice choice) }
{
    match choice {
        Some(choice) => {
            choices.push(choice)?;
            Ok(())
        }
        None => Ok(()),
    }
}

/// The children that the components around a state must have for it to be active, the innermost first.
pub fn choices_around(alloc: Global, tree: &Tree<'_>, node: u32) -> Result<Vec<Choice>, NoMemory>
    requires checked { IsChecked tree.now }
    requires node { node < length (states tree.now) }
    ensures active { IfOk result (λ choices. TellActivity tree.now node choices.items) }
    ensures components { IfOk result (λ choices. AreOfComponents tree.now choices.items) }
{
    let mut choices = Vec::new(alloc);
    let mut inner = node;
    while let Some(outer) = tree.parent(inner) {
        put(&mut choices, choice_for(tree, outer, inner))?;
        inner = outer;
    }
    Ok(choices)
}

/// Whether each component has the child of its choice.
pub fn are_chosen(chosen: &[u8], choices: &[Choice]) -> bool
    requires { All (λ c. c.component < length chosen.now) choices.now }
    ensures { result ≡ spec.are_chosen chosen.now choices.now }
{
    for choice in choices {
        if chosen[choice.component as usize] != choice.child {
            return false;
        }
    }
    true
}
