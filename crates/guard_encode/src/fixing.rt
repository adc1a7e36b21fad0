//! Functions where a cell has one number.
ghost use Rattle.std.specs.Prelude.{◌≡◌, ◌<◌, ◌&&◌, ◌+ℤ◌, Bool, true, false, IfOk, MatchOption, int_le, length, pos, slice_index_or};
ghost use Rattle.std.specs.Ordering.{int_eq};
ghost use Rattle.rsml_syntax.specs.declared.world.World.{World};
ghost use Rattle.rsml_meaning.specs.Cells.{cells};
ghost use Rattle.bdd_core.specs.Diagram.{IsRef};
ghost use Rattle.bdd_core.specs.Calls as calls;
ghost use Rattle.bdd_core.specs.Calls.{Represents};
ghost use Rattle.spelled_numbers.specs.Bits.{bits_of};
ghost use Rattle.world_levels.specs.Spelling.{cell_part};
ghost use Rattle.keyed_levels.specs.Keyed.{AreKeyed};
ghost use Rattle.guard_encode.specs.Encoding.{Finds, Keeps, worlds_of};
ghost use Rattle.guard_encode.specs.Spelling.{IsNumber, is_spelled};

use crate::encoder::Encoder;
use crate::spelling::spelled;
use bdd_core::{Arena, Ref};
use keyed_levels::KeyedLevels;
use rsml_base::NoMemory;
use world_levels::world_laws;

impl<'m, 'a> Encoder<'m, 'a> {
    /// Where `f` is true and a cell has this number, as it is spelled in one way: so the levels of the cell have one value each, however
    /// many others spell the number too.
    pub fn fixed(&mut self, f: Ref, cell: u32, number: i64) -> Result<Ref, NoMemory>
        requires f_ref { IsRef self.old.diagram f }
        requires cell { cell < length (cells self.old.machine.base.spec) }
        ensures keeps { Keeps self.old self.new }
        ensures is_ref { IfOk result (IsRef self.new.diagram) }
        ensures answer { IfOk result (λ r. (truth : World → Bool) → Finds self.old truth f
            → Finds self.new (λ w. truth w && int_eq (slice_index_or w.cells cell (pos 0)) number) r) }
    {
        world_laws();
        let spelled = self.number(cell, number)?;
        self.and(f, spelled)
    }

    /// Where the levels of a cell have the values by which a number is spelled. False everywhere, where the cell can't have it.
    fn number(&mut self, cell: u32, number: i64) -> Result<Ref, NoMemory>
        requires { cell < length (cells self.old.machine.base.spec) }
        ensures keeps { Keeps self.old self.new }
        ensures keyed { AreKeyed (worlds_of self.old) }
        ensures answer { IfOk result (IsNumber self.new.diagram (worlds_of self.old) cell number) }
    {
        world_laws();
        let worlds = self.machine.worlds();
        match above(worlds.low(cell), worlds.high(cell), number) {
            None => Ok(self.arena.constant(false)),
            Some(above) => spelled_in(&mut self.arena, &self.levels, cell, above),
        }
    }
}

/// How far a number is above the least one. None where it is below that or above the greatest.
fn above(low: i64, high: i64, number: i64) -> Option<u64>
    ensures { MatchOption result ((int_le low number && int_le number high) ≡ false)
        (λ above. (number ≡ low +ℤ pos above) × (int_le number high ≡ true)) }
{
    if number < low || number > high {
        None
    } else {
        Some(number.abs_diff(low))
    }
}

/// Where the levels of a cell have the values by which a number is spelled that is so far above the least one.
fn spelled_in(
    arena: &mut Arena,
    levels: &KeyedLevels<'_, '_>,
    cell: u32,
    above: u64,
) -> Result<Ref, NoMemory>
    requires room { arena.old.levels ≡ length levels.now.slots }
    requires cell { cell < length (cells levels.now.base.spec) }
    ensures keeps { calls.Keeps arena.old arena.new }
    ensures answer { IfOk result (Represents arena.new
        (is_spelled (bits_of (cell_part levels.now.base.spec cell) false levels.now.slots 0) above)) }
{
    let layout = levels.layout();
    layout.law();
    let bits = layout.bits(layout.components() + cell);
    spelled(arena, bits, above)
}
