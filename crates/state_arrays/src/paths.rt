ghost use Rattle.std.specs.Prelude.{◌≡◌, IfOk, IfSome, Some};
ghost use Rattle.std.specs.Option.{option_map};
ghost use Rattle.rsml_syntax.specs.limits.Checked.{IsChecked};
ghost use Rattle.rsml_meaning.specs.Words.{Path as Steps, at, child_path};
ghost use Rattle.rsml_meaning.specs.Instances.{states};
ghost use Rattle.state_arrays.specs.Places.{path_place, path_at};
ghost use Rattle.state_arrays.specs.Trees.{IsTree};
ghost use Rattle.state_arrays.specs.Children.{AreNumbers};

use crate::child::{Child, child_at};
use indexmap::IndexMap;
use rsml_syntax::{Checked, List, NoMemory, Path, Step, Text};
use state_tree::{Nodes, StepRef};
use std::alloc::Global;
use std::marker::Model;

/// The state instances of a specification, found by their paths.
pub struct Paths<'a> {
    nodes: Nodes<'a>,
    numbers: IndexMap<Child<'a>, u32>,
}

impl Drop for Paths<'_> {
    fn drop(self) {
        let Self {
            nodes: _,
            numbers: _,
        } = self;
    }
}

impl<'a> Model for Paths<'a> {
    ghost use Rattle.std.specs.Prelude.{List};
    ghost use Rattle.rsml_meaning.specs.Instances.{State};
    ghost use Rattle.rsml_syntax.specs.contracts.syntax.Body as bodies;
    ghost use Rattle.std.specs.Coded.{codes};

    ghost Value = { List State };

    ghost use Rattle.state_arrays.specs.Trees.{IsTree};
    ghost use Rattle.state_arrays.specs.Children.{AreNumbers};

    ghost coded = { Prim.hlevel (codes, bodies.the_row.coded) };

    ghost view = { λ p. p.nodes };

    ghost invariant = { λ p. record {
      tree : IsTree p.nodes;
      numbers : AreNumbers p.nodes p.nodes p.numbers;
    } };
}

/// The number of each node, as a child of the one around it.
fn numbers_of<'a>(alloc: Global, nodes: &Nodes<'a>) -> Result<IndexMap<Child<'a>, u32>, NoMemory>
    requires { IsTree nodes.now }
    ensures { IfOk result (λ numbers. AreNumbers nodes.now nodes.now numbers) }
{
    let mut numbers = IndexMap::new(alloc);
    for node in 0..nodes.len() {
        if let Some(child) = child_at(nodes, node) {
            numbers.insert(child, node)?;
        }
    }
    Ok(numbers)
}

impl<'a> Paths<'a> {
    /// The state instances of a specification.
    pub fn new(alloc: Global, checked: &'a Checked) -> Result<Paths<'a>, NoMemory>
        requires { IsChecked checked.now }
        ensures { IfOk result (λ paths. paths ≡ states checked.now) }
    {
        let nodes = Nodes::new(alloc, checked)?;
        let numbers = numbers_of(alloc, &nodes)?;
        Ok(Paths { nodes, numbers })
    }

    /// The number of the state instance of a path.
    pub fn node(&self, path: &Path) -> Option<u32>
        ensures place { result ≡ path_place self.now path.now.steps }
        ensures path { IfSome result (λ node. path_at self.now node ≡ Some path.now.steps) }
    {
        let numbers = &self.numbers;
        let mut node = None;
        for step in path.steps.as_slice() {
            let child = Child {
                parent: node,
                name: step.name.bytes(),
                index: step.index,
            };
            node = Some(*numbers.get(&child)?);
        }
        node
    }

    /// The number of the child of this name and index of a state instance.
    pub fn child(&self, node: u32, name: &[u8], index: u8) -> Option<u32>
        ensures place { (path : Steps) → path_at self.now node ≡ Some path
            → result ≡ path_place self.now (child_path path (at name.now index)) }
    {
        let child = Child {
            parent: Some(node),
            name,
            index,
        };
        self.numbers.get(&child).copied()
    }

    /// The path of a state instance.
    pub fn path(&self, alloc: Global, node: u32) -> Result<Option<Path>, NoMemory>
        ensures path { IfOk result (λ path. option_map (λ p. p.steps) path ≡ path_at self.now node) }
        ensures place { IfOk result (λ path.
            IfSome path (λ p. path_place self.now p.steps ≡ Some node)) }
    {
        match self.nodes.path(node) {
            Some(steps) => Ok(Some(Path {
                steps: copied(alloc, steps)?,
            })),
            None => Ok(None),
        }
    }
}

/// A copy of the steps of a path.
fn copied(alloc: Global, steps: &[StepRef<'_>]) -> Result<List<Step>, NoMemory>
    ensures { IfOk result (λ copy. copy ≡ steps.now) }
{
    let mut copy = List::new(alloc);
    for step in steps {
        copy.push(Step {
            name: Text::new(alloc, step.name.bytes())?,
            index: step.index,
        })?;
    }
    Ok(copy)
}
