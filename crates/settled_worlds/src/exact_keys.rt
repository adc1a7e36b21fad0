ghost use Rattle.std.specs.Prelude.{◌≡◌, ◌<◌, ◌++◌, [], ◌∷◌, IfOk, None, OnErr, OnOk, Some, length, replicate, slice_get, slice_set, take};

use bdd_core::Ref;
use rsml_base::NoMemory;
use std::alloc::Global;
use std::marker::Model;

/// The exact diagrams of keys, made when they are first asked for. Contracts see them as a list with a place for each key, and say
/// nothing of how many nodes may be made before functions are no longer settled.
#[derive(Drop)]
pub struct ExactKeys {
    made: Vec<Option<Ref>>,
    /// How many nodes may still be made.
    left: usize,
    /// How many of them for the function that is settled, and how many nodes there were before.
    granted: usize,
    before: usize,
}

impl Model for ExactKeys {
    ghost use Rattle.std.specs.Prelude.{ℕ, List, Option};

    ghost Value = { List (Option ℕ) };

    ghost view = { λ e. e.made.items };
}

impl ExactKeys {
    /// Room for so many keys, none of which is made.
    pub fn new(alloc: Global, count: usize) -> Result<ExactKeys, NoMemory>
        ensures { IfOk result (λ exact. exact ≡ replicate count None) }
    {
        Ok(ExactKeys {
            made: vec![in alloc; None; count]?,
            left: usize::MAX,
            granted: usize::MAX,
            before: 0,
        })
    }

    /// Room for one more key, whose diagram is not made. Where memory is refused nothing changes.
    pub fn push(&mut self) -> Result<(), NoMemory>
        ensures ok { OnOk result (self.new ≡ self.old ++ None ∷ []) }
        ensures err { OnErr result (self.new ≡ self.old) }
    {
        self.made.push(None)?;
        Ok(())
    }

    /// Keeps the diagrams of the first so many keys alone.
    pub fn keep(&mut self, count: usize)
        ensures { self.new ≡ take count self.old }
    {
        self.made.truncate(count);
    }

    /// From now on functions are settled only as long as about so many nodes suffice for all of them.
    pub fn limit(&mut self, nodes: usize)
        ensures { self.new ≡ self.old }
    {
        self.left = nodes;
        self.granted = 0;
    }

    /// Grants the next function a quarter of the nodes that are left, where an arena has so many nodes. What the one before has taken is
    /// taken off, at least four and at most what it was granted.
    pub fn begin(&mut self, nodes: usize)
        ensures { self.new ≡ self.old }
    {
        let taken = nodes.saturating_sub(self.before).min(self.granted).max(4);
        self.left = self.left.saturating_sub(taken);
        self.granted = self.left / 4;
        self.before = nodes;
    }

    /// Whether an arena of so many nodes has as many more as were granted.
    pub fn is_spent(&self, nodes: usize) -> bool {
        nodes.saturating_sub(self.before) >= self.granted
    }

    /// The diagram of the key at a place, where it has been made.
    pub(crate) fn get(&self, place: usize) -> Option<Ref>
        requires { place < length self.now }
        ensures { slice_get self.now place ≡ Some result }
    {
        self.made[place]
    }

    /// Keeps the diagram of the key at a place.
    pub(crate) fn set(&mut self, place: usize, made: Ref)
        requires { place < length self.old }
        ensures { self.new ≡ slice_set self.old place (Some made) }
    {
        self.made[place] = Some(made);
    }
}
