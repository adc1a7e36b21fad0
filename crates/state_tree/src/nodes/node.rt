ghost use Rattle.std.specs.Prelude.{◌≡◌, ◌+◌, ◌<◌, is_some, if◌then◌else◌};
ghost use Rattle.rsml_meaning.specs.Words.{Path};
ghost use Rattle.rsml_meaning.specs.Instances.{component_of};
ghost use Rattle.state_tree.specs.nodes.Numbers.{IsNext};

use crate::nodes::step::StepRef;
use rsml_syntax::Body;
use std::marker::Model;

/// A state instance, and the numbers of its parent and of the component that it is.
#[derive(Drop)]
pub struct Node<'a> {
    pub path: Vec<StepRef<'a>>,
    pub body: &'a Body,
    pub parent: Option<u32>,
    pub component: Option<u32>,
}

impl<'a> Model for Node<'a> {
    ghost use Rattle.state_tree.specs.nodes.Numbers as spec;
    ghost use Rattle.rsml_syntax.specs.contracts.syntax.Body as bodies;
    ghost use Rattle.std.specs.Coded.{codes};

    ghost Value = { spec.Node };

    ghost coded = { Prim.hlevel (codes, bodies.the_row.coded) };

    ghost view = { λ n. record {
      path = n.path.items;
      body = n.body.now;
      parent = n.parent;
      component = n.component;
    } };
}

/// The number of the component that a state with this body is, where so many come before it.
pub fn component_after(before: u32, body: &Body) -> Option<u32>
    ensures { (path : Path) → IsNext before (component_of body.now path) result }
{
    match body {
        Body::One { .. } => Some(before),
        _ => None,
    }
}

/// How many components there are with this one, where there is one.
pub fn count_with(before: u32, component: Option<u32>) -> u32
    requires { before < 4096 }
    ensures { result ≡ (if is_some component then before + 1 else before) }
{
    match component {
        Some(_) => before + 1,
        None => before,
    }
}
