//! The levels that a function depends on.
ghost use Rattle.std.specs.Prelude.{◌≡◌, ℕ, ◌<◌, ◌≤◌, true, false, length, slice_index_or};
ghost use Rattle.bdd_core.specs.Diagram.{IsRef, level_of};
ghost use Rattle.bdd_core.specs.Calls.{Ignores};

use super::Arena;
use crate::marks::Marks;
use crate::reference::Ref;

impl Arena {
    /// Sets the levels of all nodes that are reached from `f`, which does not depend on a level that
    /// is not set then. Its time is in proportion to the place of `f` in the arena.
    pub fn mark_levels(&self, f: Ref, marks: &mut Marks, levels: &mut [bool])
        requires in_arena { IsRef self.now f }
        requires in_marks { f < marks.old }
        requires room { self.now.levels ≤ length levels.old }
        ensures marks { marks.new ≡ marks.old }
        ensures ignores { (level : ℕ) → slice_index_or levels.new level false ≡ false
            → Ignores self.now f level }
    {
        let _ = &self.levels;
        marks.seen[f.place] = true;
        let mut at = f.place + 1;
        while at > 0 {
            at -= 1;
            if marks.seen[at] {
                self.unmark(at, &mut marks.seen);
                self.mark_level(at, levels);
            }
        }
    }

    /// Sets the level of a place, where it is no constant.
    fn mark_level(&self, at: usize, levels: &mut [bool])
        requires in_arena { IsRef self.now at }
        requires room { self.now.levels ≤ length levels.old }
        ensures stay { (level : ℕ) → slice_index_or levels.old level false ≡ true
            → slice_index_or levels.new level false ≡ true }
        ensures set { 2 ≤ at → slice_index_or levels.new (level_of self.now at) false ≡ true }
    {
        let place = self.place(Ref { place: at });
        let level = self.level(place);
        if at > 1 {
            levels[level as usize] = true;
        }
    }
}
