//! The state instances of a checked specification, numbered in the order of the text.
ghost use Rattle.std.specs.Prelude.{◌≡◌, [], ◌∷◌, ◌++◌, ◌<◌, IfOk, Some, flat_map, length, slice_get};
ghost use Rattle.std.specs.Option.{option_copied, option_map};
ghost use Rattle.rsml_syntax.specs.rules.Globals.{indices};
ghost use Rattle.rsml_meaning.specs.Words.{at, child_path};
ghost use Rattle.rsml_meaning.specs.Instances.{new_state, subtree, child_states, states};
ghost use Rattle.state_tree.specs.nodes.Numbers.{IsPlace, IsAt, Fit, instance_states};
ghost use Rattle.state_tree.specs.nodes.Numbers.{path_above, paths, components_of, path_around, component_at};

mod node;
mod step;

use node::{Node, component_after, count_with};
use rsml_names::{Globals, children_of};
use rsml_syntax::{Amount, Body, Checked, NoMemory, StateDecl};
use std::alloc::Global;
use std::marker::Model;
pub use step::StepRef;
use step::{below, copied};

/// The state instances of a checked specification. Each has its place as its number, counted from
/// 0.
#[derive(Drop)]
pub struct Nodes<'a> {
    all: Vec<Node<'a>>,
    components: u32,
}

impl<'a> Model for Nodes<'a> {
    ghost use Rattle.std.specs.Prelude.{◌≡◌, List, map, length};
    ghost use Rattle.rsml_meaning.specs.Instances.{State};
    ghost use Rattle.state_tree.specs.nodes.Numbers as spec;
    ghost use Rattle.rsml_syntax.specs.contracts.syntax.Body as bodies;
    ghost use Rattle.std.specs.Coded.{codes};

    ghost Value = { List State };

    ghost coded = { Prim.hlevel (codes, bodies.the_row.coded) };

    ghost view = { λ n. map spec.state_of n.all.items };

    ghost invariant = { λ n. spec.AreNumbered n.all.items n.components };
}

impl<'a> Nodes<'a> {
    /// The state instances of a specification.
    pub fn new(alloc: Global, checked: &'a Checked) -> Result<Nodes<'a>, NoMemory>
        ensures { IfOk result (λ n. n ≡ states checked.now) }
    {
        let spec = checked.spec();
        let globals = Globals::new(alloc, spec.decls.as_slice())?;
        let top = below(alloc, &[], &spec.top, 0)?;
        let none = Nodes {
            all: Vec::new(alloc),
            components: 0,
        };
        none.with(alloc, &globals, &top, None, &spec.body)
    }

    /// These, and then a state with what is inside it.
    #[cycle(walk)]
    fn with(
        self,
        alloc: Global,
        globals: &Globals<'_>,
        path: &[StepRef<'a>],
        parent: Option<u32>,
        body: &'a Body,
    ) -> Result<Nodes<'a>, NoMemory>
        requires parent { IsPlace (paths self) (path_above path.now) parent }
        requires some { 0 < length path.now }
        requires room { Fit (length self) (subtree globals.now body.now path.now) }
        ensures { IfOk result (λ n. n ≡ self.entry ++ subtree globals.now body.now path.now) }
    {
        let number = self.len();
        let nodes = self.put(alloc, path, parent, body)?;
        nodes.with_children(alloc, globals, path, number, children_of(body))
    }

    /// These, and then the children of a state with what is inside them.
    #[cycle(walk)]
    fn with_children(
        self,
        alloc: Global,
        globals: &Globals<'_>,
        path: &[StepRef<'a>],
        parent: u32,
        children: &'a [StateDecl],
    ) -> Result<Nodes<'a>, NoMemory>
        requires parent { IsAt self parent path.now }
        requires room { Fit (length self)
            (flat_map (child_states globals.now path.now) children.now) }
        ensures { IfOk result (λ n. n ≡ self.entry
            ++ flat_map (child_states globals.now path.now) children.now) }
    {
        let mut nodes = self;
        for child in children {
            nodes = nodes.with_child(alloc, globals, path, parent, child)?;
        }
        Ok(nodes)
    }

    /// These, and then each instance of a child with what is inside it.
    #[cycle(walk)]
    fn with_child(
        self,
        alloc: Global,
        globals: &Globals<'_>,
        path: &[StepRef<'a>],
        parent: u32,
        child: &'a StateDecl,
    ) -> Result<Nodes<'a>, NoMemory>
        requires parent { IsAt self parent path.now }
        requires room { Fit (length self) (child_states globals.now path.now child.now) }
        ensures { IfOk result (λ n. n ≡ self.entry ++ child_states globals.now path.now child.now) }
    {
        match &child.size {
            None => self.with_instance(alloc, globals, path, parent, child, 0),
            Some(size) => self.with_array(alloc, globals, path, parent, child, size),
        }
    }

    /// These, and then each element of an array of states with what is inside it.
    #[cycle(walk)]
    fn with_array(
        self,
        alloc: Global,
        globals: &Globals<'_>,
        path: &[StepRef<'a>],
        parent: u32,
        child: &'a StateDecl,
        size: &Amount,
    ) -> Result<Nodes<'a>, NoMemory>
        requires parent { IsAt self parent path.now }
        requires room { Fit (length self)
            (instance_states globals.now path.now child.now (indices globals.now (Some size.now))) }
        ensures { IfOk result (λ n. n ≡ self.entry
            ++ instance_states globals.now path.now child.now (indices globals.now (Some size.now))) }
    {
        let mut nodes = self;
        for before in 0..globals.many(Some(size)) {
            let index = (before + 1) as u8;
            nodes = nodes.with_instance(alloc, globals, path, parent, child, index)?;
        }
        Ok(nodes)
    }

    /// These, and then one instance of a child with what is inside it.
    #[cycle(walk)]
    fn with_instance(
        self,
        alloc: Global,
        globals: &Globals<'_>,
        path: &[StepRef<'a>],
        parent: u32,
        child: &'a StateDecl,
        index: u8,
    ) -> Result<Nodes<'a>, NoMemory>
        requires parent { IsAt self parent path.now }
        requires room { Fit (length self)
            (subtree globals.now child.now.body (child_path path.now (at child.now.name index))) }
        ensures { IfOk result (λ n. n ≡ self.entry
            ++ subtree globals.now child.now.body (child_path path.now (at child.now.name index))) }
    {
        let path = below(alloc, path, &child.name, index)?;
        self.with(alloc, globals, &path, Some(parent), &child.body)
    }

    /// These with one more state, which has the next number.
    fn put(
        self,
        alloc: Global,
        path: &[StepRef<'a>],
        parent: Option<u32>,
        body: &'a Body,
    ) -> Result<Nodes<'a>, NoMemory>
        requires parent { IsPlace (paths self) (path_above path.now) parent }
        requires room { length self < 4096 }
        ensures { IfOk result (λ n. n ≡ self.entry ++ new_state body.now path.now ∷ []) }
    {
        let Nodes {
            mut all,
            components,
        } = self;
        let path = copied(alloc, path)?;
        let component = component_after(components, body);
        let components = count_with(components, component);
        all.push(Node {
            path,
            body,
            parent,
            component,
        })?;
        Ok(Nodes { all, components })
    }

    /// How many state instances there are.
    pub fn len(&self) -> u32
        ensures { result ≡ length self.now }
    {
        self.all.len() as u32
    }

    /// The path of a state instance.
    pub fn path(&self, node: u32) -> Option<&[StepRef<'a>]>
        ensures { option_copied result ≡ option_map (λ x. x.path) (slice_get self.now node) }
    {
        Some(self.all.get(node as usize)?.path.as_slice())
    }

    /// What a state instance is made of.
    pub fn body(&self, node: u32) -> Option<&'a Body>
        ensures { option_copied result ≡ option_map (λ x. x.body) (slice_get self.now node) }
    {
        Some(self.all.get(node as usize)?.body)
    }

    /// The number of the state instance around one. None exactly for the top state, and where there
    /// is no such node.
    pub fn parent(&self, node: u32) -> Option<u32>
        ensures { IsPlace (paths self.now) (path_around self.now node) result }
    {
        self.all.get(node as usize)?.parent
    }

    /// The number of a component. None exactly where the node is no `one` state, and where there is
    /// no such node.
    pub fn component_of(&self, node: u32) -> Option<u32>
        ensures { IsPlace (components_of self.now) (component_at self.now node) result }
    {
        self.all.get(node as usize)?.component
    }
}
