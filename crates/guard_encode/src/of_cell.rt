//! What functions tell of one cell.
ghost use Rattle.std.specs.Prelude.{◌≡◌, ◌<◌, ◌↔◌, ◌&&◌, Bool, false, not, IfOk, int_le, length, pos, slice_index_or};
ghost use Rattle.rsml_syntax.specs.declared.world.World.{World};
ghost use Rattle.rsml_meaning.specs.Cells.{cells};
ghost use Rattle.rsml_meaning.specs.Worlds.{IsWorld};
ghost use Rattle.bdd_core.specs.Diagram.{IsRef};
ghost use Rattle.keyed_levels.specs.Keyed.{AreKeyed};
ghost use Rattle.settled_worlds.specs.Settled.{cell_levels, IsProjected, IsSameLawfully};
ghost use Rattle.guard_encode.specs.Encoding.{Finds, IsOfCell, Keeps, worlds_of};

use crate::encoder::Encoder;
use bdd_core::Ref;
use keyed_levels::keyed_laws;
use rsml_base::NoMemory;
use settled_worlds::{project, with_exact};
use std::alloc::Global;
use world_levels::world_laws;

impl<'m, 'a> Encoder<'m, 'a> {
    /// What `f` tells of one cell. Where its numbers are asked for one after another, comparisons of other cells are looked at once.
    pub fn of_cell(&mut self, alloc: Global, f: Ref, cell: u32) -> Result<Ref, NoMemory>
        requires f_ref { IsRef self.old.diagram f }
        requires cell { cell < length (cells self.old.machine.base.spec) }
        ensures keeps { Keeps self.old self.new }
        ensures is_ref { IfOk result (IsRef self.new.diagram) }
        ensures answer { IfOk result (λ r. (truth : World → Bool) → Finds self.old truth f → IsOfCell self.new cell truth r) }
    {
        keyed_laws();
        world_laws();
        self.projected(alloc, f, cell)
    }

    /// Whether what is told of a cell is true of some world in which the cell has at most this number.
    pub fn may_be_at_most(&mut self, r: Ref, cell: u32, number: i64) -> Result<bool, NoMemory>
        requires r_ref { IsRef self.old.diagram r }
        requires cell { cell < length (cells self.old.machine.base.spec) }
        ensures keeps { Keeps self.old self.new }
        ensures answer { IfOk result (λ may. (truth : World → Bool) → IsOfCell self.old cell truth r → (may ≡ false)
            ↔ ((w : World) → IsWorld self.old.machine.base.spec w → (truth w && int_le (slice_index_or w.cells cell (pos 0)) number) ≡ false)) }
    {
        let below = self.at_most(cell, number)?;
        let both = self.and(r, below)?;
        Ok(!self.is_false(both))
    }

    /// What is told of a cell, where its number is greater than this.
    pub fn above(&mut self, r: Ref, cell: u32, number: i64) -> Result<Ref, NoMemory>
        requires r_ref { IsRef self.old.diagram r }
        requires cell { cell < length (cells self.old.machine.base.spec) }
        ensures keeps { Keeps self.old self.new }
        ensures is_ref { IfOk result (IsRef self.new.diagram) }
        ensures answer { IfOk result (λ above. (truth : World → Bool) → IsOfCell self.old cell truth r
            → IsOfCell self.new cell (λ w. truth w && not (int_le (slice_index_or w.cells cell (pos 0)) number)) above) }
    {
        let below = self.at_most(cell, number)?;
        let higher = self.not(below)?;
        self.and(r, higher)
    }

    /// `f` with the comparisons made exact that name none but the first so many cells. It finds the same worlds. Where these cells have
    /// one number each in all of them, it depends on none of these comparisons any more.
    pub fn with_exact(&mut self, alloc: Global, f: Ref, cells: usize) -> Result<Ref, NoMemory>
        requires { IsRef self.old.diagram f }
        ensures keeps { Keeps self.old self.new }
        ensures is_ref { IfOk result (IsRef self.new.diagram) }
        ensures answer { IfOk result (λ r. (truth : World → Bool) → Finds self.old truth f → Finds self.new truth r) }
    {
        self.exactly(alloc, f, cells)
    }

    /// The same, as a function that is what `f` is at lawful values.
    fn exactly(&mut self, alloc: Global, f: Ref, cells: usize) -> Result<Ref, NoMemory>
        requires { IsRef self.old.diagram f }
        ensures keeps { Keeps self.old self.new }
        ensures answer { IfOk result (IsSameLawfully self.old.diagram self.new.diagram (worlds_of self.old) f) }
    {
        with_exact(
            alloc,
            &mut self.arena,
            &mut self.sums,
            &self.levels,
            &mut self.exact,
            cells,
            f,
        )
    }

    /// A function that tells of the levels of a cell what `f` does at lawful values.
    fn projected(&mut self, alloc: Global, f: Ref, cell: u32) -> Result<Ref, NoMemory>
        requires f_ref { IsRef self.old.diagram f }
        requires cell { cell < length (cells self.old.machine.base.spec) }
        ensures keeps { Keeps self.old self.new }
        ensures keyed { AreKeyed (worlds_of self.old) }
        ensures answer { IfOk result (IsProjected self.old.diagram self.new.diagram (worlds_of self.old) (cell_levels (worlds_of self.old) cell) f) }
    {
        project(
            alloc,
            &mut self.arena,
            &mut self.sums,
            &self.levels,
            &mut self.exact,
            cell,
            f,
        )
    }
}
