ghost use Rattle.std.specs.Prelude.{◌≡◌, length, IfOk};

use crate::arena::Arena;
use rsml_base::NoMemory;
use std::alloc::Global;
use std::marker::Model;

/// Room to count the nodes that are reached from a handle, for the nodes that the arena had when
/// the marks were made. Contracts see it as that number of nodes.
#[derive(Drop)]
pub struct Marks {
    pub(crate) seen: Vec<bool>,
}

impl Model for Marks {
    ghost use Rattle.std.specs.Prelude.{◌≡◌, ℕ, false, length, slice_index_or};

    ghost Value = { ℕ };

    ghost view = { λ marks. length marks.seen.items };

    // Between calls no mark is set.
    ghost invariant = { λ marks. (k : ℕ) → slice_index_or marks.seen.items k false ≡ false };
}

impl Marks {
    /// Marks for all nodes that the arena has now.
    pub fn new(alloc: Global, arena: &Arena) -> Result<Marks, NoMemory>
        ensures { IfOk result (λ marks. marks ≡ length arena.now.nodes) }
    {
        Ok(Marks {
            seen: vec![in alloc; false; arena.node_count()]?,
        })
    }
}
