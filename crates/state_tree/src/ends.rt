ghost use Rattle.std.specs.Prelude.{◌≡◌, ◌<◌, IfOk, length};
ghost use Rattle.rsml_syntax.specs.limits.Checked.{IsChecked};
ghost use Rattle.rsml_meaning.specs.Instances.{states};
ghost use Rattle.state_tree.specs.nodes.Numbers.{paths};
ghost use Rattle.state_tree.specs.Tables.{AreEnds, IsEnd};

use crate::nodes::Nodes;
use rsml_syntax::{NoMemory, Spec};
use std::alloc::Global;

/// The number past the last state that is in a state: the first later one whose parent comes before it.
fn end_of(spec: &Spec, nodes: &Nodes<'_>, node: u32) -> u32
    requires checked { IsChecked spec.now }
    requires nodes { nodes.now ≡ states spec.now }
    requires node { node < length nodes.now }
    ensures { IsEnd (paths nodes.now) node result }
{
    for end in node + 1..nodes.len() {
        let Some(parent) = nodes.parent(end) else {
            return end;
        };
        if parent < node {
            return end;
        }
    }
    nodes.len()
}

/// For each state the number past the last state that is in it.
pub fn ends(alloc: Global, spec: &Spec, nodes: &Nodes<'_>) -> Result<Vec<u32>, NoMemory>
    requires checked { IsChecked spec.now }
    requires nodes { nodes.now ≡ states spec.now }
    ensures { IfOk result (λ v. AreEnds (paths nodes.now) v.items) }
{
    let mut ends = Vec::new(alloc);
    for node in 0..nodes.len() {
        ends.push(end_of(spec, nodes, node))?;
    }
    Ok(ends)
}
