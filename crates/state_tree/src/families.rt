ghost use Rattle.std.specs.Prelude.{◌≡◌, [], ◌++◌, ◌<◌, IfOk, length};
ghost use Rattle.std.specs.List.{cons_option};
ghost use Rattle.rsml_syntax.specs.limits.Checked.{IsChecked};
ghost use Rattle.rsml_meaning.specs.Instances.{states};
ghost use Rattle.state_tree.specs.nodes.Numbers.{paths, component_at};
ghost use Rattle.state_tree.specs.Tables.{AreEnds, IsFamilyOf, AreFamilies};

use crate::family::{Family, child_place, in_row};
use crate::nodes::Nodes;
use rsml_names::{children_of, default_of};
use rsml_syntax::{NoMemory, Spec};
use std::alloc::Global;

/// The family of a state, where that is a component.
fn family(
    alloc: Global,
    spec: &Spec,
    nodes: &Nodes<'_>,
    ends: &[u32],
    node: u32,
) -> Result<Option<Family>, NoMemory>
    requires checked { IsChecked spec.now }
    requires nodes { nodes.now ≡ states spec.now }
    requires ends { AreEnds (paths nodes.now) ends.now }
    requires node { node < length nodes.now }
    ensures { IfOk result (λ o. IsFamilyOf spec.now node (component_at nodes.now node) o) }
{
    let Some(body) = nodes.body(node) else {
        return Ok(None);
    };
    match default_of(body) {
        None => Ok(None),
        Some(first) => {
            let children = children_of(body);
            let default = child_place(children, first);
            let children = in_row(alloc, ends, node + 1, children.len())?;
            Ok(Some(Family {
                node,
                default,
                children,
            }))
        }
    }
}

/// Families with one more, where there is one.
fn with_family(mut families: Vec<Family>, family: Option<Family>) -> Result<Vec<Family>, NoMemory>
    ensures { IfOk result (λ v. v.items ≡ families.items ++ cons_option family []) }
{
    match family {
        Some(family) => {
            families.push(family)?;
            Ok(families)
        }
        None => Ok(families),
    }
}

/// The families of all components.
pub fn families(
    alloc: Global,
    spec: &Spec,
    nodes: &Nodes<'_>,
    ends: &[u32],
) -> Result<Vec<Family>, NoMemory>
    requires checked { IsChecked spec.now }
    requires nodes { nodes.now ≡ states spec.now }
    requires ends { AreEnds (paths nodes.now) ends.now }
    ensures { IfOk result (λ v. AreFamilies spec.now v.items) }
{
    let mut families = Vec::new(alloc);
    for node in 0..nodes.len() {
        families = with_family(families, family(alloc, spec, nodes, ends, node)?)?;
    }
    Ok(families)
}
