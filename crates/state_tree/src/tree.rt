ghost use Rattle.std.specs.Prelude.{◌≡◌, ◌<◌, IfOk, List, length, map, slice_get, Some};
ghost use Rattle.rsml_syntax.specs.declared.world.Step.{Step};
ghost use Rattle.rsml_meaning.specs.Words as words;
ghost use Rattle.rsml_meaning.specs.Words.{Path, child_path};
ghost use Rattle.rsml_meaning.specs.Instances.{Component, states, components};
ghost use Rattle.rsml_meaning.specs.Active as spec;
ghost use Rattle.rsml_meaning.specs.Worlds.{is_choice};
ghost use Rattle.std.specs.Cmp.Lexicographic.{pointwise};
ghost use Rattle.state_tree.specs.nodes.Numbers.{IsPlace, paths, path_around, component_at};
ghost use Rattle.state_tree.specs.Tables.{HasFamily};
ghost use Rattle.state_tree.specs.Numbers.{path_of, component_path};
ghost use Rattle.state_tree.specs.Numbers.{HasChild, AreChoices, IsActivity, leads_to};

use crate::ends::ends;
use crate::families::families;
use crate::family::{Family, child_place};
use crate::nodes::Nodes;
use crate::paths;
use rsml_names::children_of;
use rsml_syntax::{Checked, List as Items, NoMemory, Spec, Text};
use std::alloc::Global;
use std::marker::Model;

/// The tree of state instances of a checked specification. States and components are named by
/// their places in the order of the text, counted from 0. Only `build` takes memory.
pub struct Tree<'a> {
    spec: &'a Spec,
    nodes: Nodes<'a>,
    ends: Vec<u32>,
    families: Vec<Family>,
}

impl Drop for Tree<'_> {
    fn drop(self) {
        let Self {
            spec: _,
            nodes: _,
            ends: _,
            families: _,
        } = self;
    }
}

impl<'a> Model for Tree<'a> {
    ghost use Rattle.rsml_syntax.specs.declared.syntax.Spec.{Spec};
    ghost use Rattle.rsml_syntax.specs.contracts.syntax.Body as bodies;
    ghost use Rattle.state_tree.specs.Tables.{AreTables};
    ghost use Rattle.std.specs.Coded.{codes};

    ghost Value = { Spec };

    ghost coded = { Prim.hlevel (codes, bodies.the_row.coded) };

    ghost view = { λ t. t.spec.now };

    ghost invariant = { λ t. AreTables t.spec.now t.nodes t.ends.items t.families.items };
}

impl<'a> Tree<'a> {
    /// The tree of a specification.
    pub fn build(alloc: Global, checked: &'a Checked) -> Result<Tree<'a>, NoMemory>
        ensures { IfOk result (λ t. t ≡ checked.now) }
    {
        let spec = checked.spec();
        let nodes = Nodes::new(alloc, checked)?;
        let ends = ends(alloc, spec, &nodes)?;
        let families = families(alloc, spec, &nodes, &ends)?;
        Ok(Tree {
            spec,
            nodes,
            ends,
            families,
        })
    }

    /// How many state instances there are.
    pub fn nodes(&self) -> u32
        ensures { result ≡ length (states self.now) }
    {
        self.nodes.len()
    }

    /// The state instances.
    pub fn states(&self) -> &Nodes<'a>
        ensures { result.now ≡ states self.now }
    {
        &self.nodes
    }

    /// How many components there are.
    pub fn components(&self) -> u32
        ensures { result ≡ length (components self.now) }
    {
        self.families.len() as u32
    }

    /// The state instance around one. None exactly for the top state, and where there is no such
    /// node.
    pub fn parent(&self, node: u32) -> Option<u32>
        ensures { IsPlace (paths (states self.now)) (path_around (states self.now) node) result }
    {
        self.nodes.parent(node)
    }

    /// The component that a state instance is. None exactly where it is no `one` state, and where
    /// there is no such node.
    pub fn component_of(&self, node: u32) -> Option<u32>
        ensures { IsPlace (components self.now) (component_at (states self.now) node) result }
    {
        self.nodes.component_of(node)
    }

    /// What is stored of a component.
    fn family(&self, component: u32) -> &Family
        requires { component < length (components self.now) }
        ensures { HasFamily self.now component result.now }
    {
        &self.families[component as usize]
    }

    /// How many children a component has.
    pub fn children(&self, component: u32) -> u8
        requires { component < length (components self.now) }
        ensures { (c : Component) → slice_get (components self.now) component ≡ Some c
            → result ≡ length c.children }
    {
        self.family(component).children.len() as u8
    }

    /// Whether choices are those of one child for each component, by its place.
    pub fn fits(&self, choices: &[u8]) -> bool
        ensures { result ≡ pointwise is_choice (components self.now) choices.now }
    {
        if choices.len() != self.components() as usize {
            return false;
        }
        for (component, choice) in choices.iter().enumerate() {
            if *choice >= self.children(component as u32) {
                return false;
            }
        }
        true
    }

    /// The child at a place of a component.
    pub fn child(&self, component: u32, place: u8) -> u32
        requires { HasChild self.now component place }
        ensures { (c : Component) → slice_get (components self.now) component ≡ Some c
            → slice_get (paths (states self.now)) result ≡ Some (spec.chosen (c, place)) }
    {
        self.family(component).children[place as usize]
    }

    /// Whether a state instance is in another, or is it.
    fn is_within(&self, node: u32, outer: u32) -> bool
        requires node { node < length (states self.now) }
        requires outer { outer < length (states self.now) }
        ensures { result ≡ words.is_prefix (path_of self.now outer) (path_of self.now node) }
    {
        outer <= node && node < self.ends[outer as usize]
    }

    /// Whether one state instance is in the other, or is it.
    pub fn on_one_line(&self, a: u32, b: u32) -> bool
        requires a { a < length (states self.now) }
        requires b { b < length (states self.now) }
        ensures { result ≡ words.on_one_line (path_of self.now a) (path_of self.now b) }
    {
        self.is_within(b, a) || self.is_within(a, b)
    }

    /// Whether a state that is a component has this child chosen. A state that is none leads to all
    /// its children.
    fn leads(&self, choices: &[u8], parent: u32, node: u32) -> bool
        requires choices { AreChoices self.now choices.now }
        ensures { (p : Path) (x : Step) → slice_get (paths (states self.now)) parent ≡ Some p
            → slice_get (paths (states self.now)) node ≡ Some (child_path p x)
            → result ≡ leads_to self.now choices.now p x }
    {
        // To look at a field makes the invariant of the tree known to the proof.
        let _ = &self.spec;
        match self.component_of(parent) {
            Some(component) => self.child(component, choices[component as usize]) == node,
            None => true,
        }
    }

    /// Whether a state instance is active where each component has the child at the place that is
    /// chosen. It looks at the states around it alone.
    pub fn active(&self, choices: &[u8], node: u32) -> bool
        requires choices { AreChoices self.now choices.now }
        requires node { node < length (states self.now) }
        ensures { IsActivity self.now choices.now node result }
    {
        let _ = &self.spec;
        let mut inner = node;
        while let Some(outer) = self.parent(inner) {
            if !self.leads(choices, outer, inner) {
                return false;
            }
            inner = outer;
        }
        true
    }

    /// The place of the child of this name of a component, or 0 where there is none.
    fn place(&self, component: u32, name: &Text) -> u8
        requires { component < length (components self.now) }
        ensures { (c : Component) → slice_get (components self.now) component ≡ Some c
            → result ≡ spec.child_place c name.now }
    {
        match self.nodes.body(self.family(component).node) {
            Some(body) => child_place(children_of(body), name),
            None => 0,
        }
    }

    /// The place of the child that a component gets where a target is entered.
    fn entered(&self, component: u32, target: u32) -> u8
        requires component { component < length (components self.now) }
        requires target { target < length (states self.now) }
        ensures { (c : Component) → slice_get (components self.now) component ≡ Some c
            → result ≡ spec.child_place c (spec.entered (path_of self.now target) c) }
    {
        let family = self.family(component);
        if !self.is_within(target, family.node) {
            return family.default;
        }
        let depth = paths::path_of(&self.nodes, family.node).len();
        match paths::path_of(&self.nodes, target).get(depth) {
            Some(step) => self.place(component, step.name),
            None => family.default,
        }
    }

    /// Gives each component at and below the moving one the child that leads to the target, or else
    /// its default child. All others keep theirs.
    pub fn enter(&self, choices: &mut Items<u8>, component: u32, target: u32)
        requires fit { length choices.old ≡ length (components self.now) }
        requires component { component < length (components self.now) }
        requires target { target < length (states self.now) }
        ensures { choices.new ≡ spec.enter self.now
            (component_path self.now component) (path_of self.now target) choices.old }
    {
        let _ = &self.spec;
        let top = self.family(component).node;
        for below in component..self.components() {
            if !self.is_within(self.family(below).node, top) {
                return;
            }
            choices.set(below as usize, self.entered(below, target));
        }
    }
}
