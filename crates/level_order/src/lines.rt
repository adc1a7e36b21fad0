//! The components around states.
use crate::lists::Lists;
use crate::sets::PartSet;
use rsml_base::NoMemory;
use state_tree::Tree;
use std::alloc::Global;

/// For each state the components around it, from the top inwards: those around the state that it stands in, and that state, if it is
/// a component. A state comes before those inside it, so its line is there before theirs.
pub fn lines(alloc: Global, tree: &Tree<'_>, set: &mut PartSet) -> Result<Lists, NoMemory> {
    let mut lines = Lists::new(alloc);
    for node in 0..tree.nodes() {
        set.clear();
        if let Some(outer) = tree.parent(node) {
            set.add_all(lines.get(outer as usize))?;
            if let Some(component) = tree.component_of(outer) {
                set.add(component)?;
            }
        }
        lines.add(set.as_slice())?;
    }
    Ok(lines)
}
