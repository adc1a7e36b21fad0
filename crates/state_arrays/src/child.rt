ghost use Rattle.state_arrays.specs.Children.{IsChildAt};

use state_tree::Nodes;

/// A state instance by the number of the one around it, and its own name and index.
#[derive(Clone, Copy, PartialEq, Eq, Hash)]
pub struct Child<'a> {
    pub parent: Option<u32>,
    pub name: &'a [u8],
    pub index: u8,
}

/// A state instance by the number of the one around it.
pub fn child_at<'a>(nodes: &Nodes<'a>, node: u32) -> Option<Child<'a>>
    ensures { IsChildAt nodes.now node result }
{
    let step = nodes.path(node)?.last()?;
    Some(Child {
        parent: nodes.parent(node),
        name: step.name.bytes(),
        index: step.index,
    })
}
