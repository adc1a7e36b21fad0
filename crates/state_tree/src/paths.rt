ghost use Rattle.std.specs.Prelude.{◌≡◌, ◌<◌, Some, length, slice_get};
ghost use Rattle.state_tree.specs.nodes.Numbers.{paths};

use crate::nodes::{Nodes, StepRef};

/// The path of a state instance.
pub fn path_of<'n>(nodes: &'n Nodes<'_>, node: u32) -> &'n [StepRef<'n>]
    requires { node < length nodes.now }
    ensures { slice_get (paths nodes.now) node ≡ Some result.now }
{
    nodes.path(node).unwrap()
}
