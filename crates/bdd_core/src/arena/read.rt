//! The calls that only read an arena. They take no memory.
ghost use Rattle.std.specs.Prelude.{◌≡◌, ◌≢◌, ◌↔◌, ◌⊎◌, ℕ, ◌<◌, ◌≤◌, true, false, length, IsNone, IfSome, Some, slice_get, slice_index_or};
ghost use Rattle.bdd_core.specs.Diagram.{IsRef, node_at, meaning};
ghost use Rattle.bdd_core.specs.Reach.{IsSize};
ghost use Rattle.bdd_core.specs.Calls.{values_of, IsConstant, IsBranch};
ghost use Rattle.bdd_core.specs.Steps.{IsChild};

use super::Arena;
use crate::branch::Branch;
use crate::marks::Marks;
use crate::reference::Ref;

impl Arena {
    /// The value of a function, where each level has the value at its place.
    pub fn eval(&self, f: Ref, values: &[bool]) -> bool
        requires place { IsRef self.now f }
        requires values { length values.now ≡ self.now.levels }
        ensures { result ≡ meaning self.now f (values_of values.now) }
    {
        let mut at = self.place(f);
        while at > 1 {
            let node = self.nodes.node(at as usize);
            at = if values[node.level as usize] {
                node.high
            } else {
                node.low
            };
        }
        at == 1
    }

    /// The node of a function. None exactly where the function is a constant.
    pub fn branch(&self, f: Ref) -> Option<Branch>
        requires { IsRef self.now f }
        ensures constant { IsNone result ↔ IsConstant self.now f }
        ensures node { IfSome result (λ branch. IsBranch self.now f branch) }
    {
        let node = self.nodes.node(f.place);
        if f.place < 2 {
            return None;
        }
        Some(Branch {
            level: node.level,
            low: Ref::at(node.low),
            high: Ref::at(node.high),
        })
    }

    /// How many different nodes are reached from `f`, itself and the constants counted. Its time is
    /// in proportion to the place of `f` in the arena.
    pub fn size(&self, f: Ref, marks: &mut Marks) -> usize
        requires in_arena { IsRef self.now f }
        requires in_marks { f < marks.old }
        ensures size { IsSize self.now f result }
        ensures marks { marks.new ≡ marks.old }
    {
        let _ = &self.levels;
        marks.seen[f.place] = true;
        let mut count = 0;
        let mut at = f.place + 1;
        while at > 0 {
            at -= 1;
            if marks.seen[at] {
                self.unmark(at, &mut marks.seen);
                count += 1;
            }
        }
        count
    }

    /// Takes the mark of a place, and marks its children.
    pub(super) fn unmark(&self, at: usize, seen: &mut Vec<bool>)
        requires place { at < length seen.old.items }
        requires in_arena { IsRef self.now at }
        requires marked { slice_get seen.old.items at ≡ Some true }
        ensures len { length seen.new.items ≡ length seen.old.items }
        ensures stay { (k : ℕ) → k ≢ at → slice_index_or seen.old.items k false ≡ true
            → slice_index_or seen.new.items k false ≡ true }
        ensures low { 2 ≤ at → (node_at self.now at).low < at
            → slice_index_or seen.new.items (node_at self.now at).low false ≡ true }
        ensures high { 2 ≤ at → (node_at self.now at).high < at
            → slice_index_or seen.new.items (node_at self.now at).high false ≡ true }
        ensures tells { (k : ℕ) → slice_index_or seen.new.items k false ≡ true
            → ((k ≢ at) × (slice_index_or seen.old.items k false ≡ true)) ⊎ (IsChild self.now at k) }
    {
        let node = self.nodes.node(at);
        seen[at] = false;
        if at > 1 {
            seen[node.low as usize] = true;
            seen[node.high as usize] = true;
        }
    }
}
