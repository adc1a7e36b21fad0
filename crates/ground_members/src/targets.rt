ghost use Rattle.std.specs.Prelude.{◌≡◌, Some};
ghost use Rattle.std.specs.Option.{option_copied, option_map};
ghost use Rattle.rsml_meaning.specs.Words.{Path, at, child_path};
ghost use Rattle.rsml_meaning.specs.Instances.{states};
ghost use Rattle.rsml_meaning.specs.Transitions.{target_path};
ghost use Rattle.state_arrays.specs.Places.{path_at};
ghost use Rattle.state_arrays.specs.Trees.{HasPath};
ghost use Rattle.ground_members.specs.Members.{IsState, IsTarget};
ghost use Rattle.ground_members.specs.Scoped.{HasChild, LeadsOn, TargetIsScoped};

use phrase_builder::Lookup;
use rsml_syntax::{List, Text};

/// The number of the child of this name of a state.
pub fn child(lookup: &Lookup<'_, '_>, node: u32, name: &Text) -> u32
    requires { HasChild lookup.now node name.now }
    ensures { (path : Path) → path_at (states lookup.now) node ≡ Some path
        → IsState lookup.now (child_path path (at name.now 0)) result }
{
    lookup.names().child_of(node, name.bytes(), 0).unwrap()
}

// The number of the state to which these names lead from a state.
fn walked(lookup: &Lookup<'_, '_>, from: u32, names: &[Text]) -> u32
    requires { LeadsOn lookup.now from names.now }
    ensures { (path : Path) → path_at (states lookup.now) from ≡ Some path
        → IsState lookup.now (target_path path names.now) result }
{
    let mut node = from;
    for name in names {
        node = child(lookup, node, name);
    }
    node
}

/// The number of the state of a target, which is named from a component on.
pub fn target(lookup: &Lookup<'_, '_>, from: u32, names: Option<&List<Text>>) -> Option<u32>
    requires { (path : Path) × (path_at (states lookup.now) from ≡ Some path)
        × TargetIsScoped lookup.now (option_map (target_path path) (option_copied names)) }
    ensures { (path : Path) → path_at (states lookup.now) from ≡ Some path
        → IsTarget lookup.now (option_map (target_path path) (option_copied names.entry)) result }
{
    let _ = lookup.spec();
    match names {
        Some(names) => Some(walked(lookup, from, names.as_slice())),
        None => None,
    }
}
