//! The levels of cells.
ghost use Rattle.std.specs.Prelude.{◌≡◌, ◌<◌, false, IfOk, length, map};
ghost use Rattle.rsml_meaning.specs.Cells.{cells};
ghost use Rattle.spelled_numbers.specs.Bits.{bits_of};
ghost use Rattle.world_levels.specs.Spelling.{cell_part};
ghost use Rattle.bdd_core.specs.Diagram.{IsRef};
ghost use Rattle.bdd_core.specs.Calls.{Keeps, IsForgotten};
ghost use Rattle.settled_worlds.specs.Settled.{cell_levels};

use bdd_core::{Arena, Ref};
use keyed_levels::KeyedLevels;
use rsml_base::NoMemory;
use spelled_numbers::Weighted;
use std::alloc::Global;

/// The levels of a cell, with their weights.
pub(crate) fn cell_bits<'l>(levels: &'l KeyedLevels<'_, '_>, cell: u32) -> &'l [Weighted]
    requires { cell < length (cells levels.now.base.spec) }
    ensures { result.now ≡ bits_of (cell_part levels.now.base.spec cell) false levels.now.slots 0 }
{
    let layout = levels.layout();
    layout.law();
    layout.bits(layout.components() + cell)
}

/// A function where the levels of a cell may have any value.
pub(crate) fn forget_cell(
    alloc: Global,
    arena: &mut Arena,
    levels: &KeyedLevels<'_, '_>,
    cell: u32,
    f: Ref,
) -> Result<Ref, NoMemory>
    requires f_ref { IsRef arena.old f }
    requires cell { cell < length (cells levels.now.base.spec) }
    ensures keeps { Keeps arena.old arena.new }
    ensures answer { IfOk result (IsForgotten arena.old arena.new f (cell_levels levels.now cell)) }
{
    let numbers = levels_of(alloc, cell_bits(levels, cell))?;
    arena.forget(f, numbers.as_slice())
}

/// The levels, without their weights.
fn levels_of(alloc: Global, bits: &[Weighted]) -> Result<Vec<u32>, NoMemory>
    ensures { IfOk result (λ levels. levels.items ≡ map (λ t. t.level) bits.now) }
{
    let mut levels = Vec::new(alloc);
    for bit in bits {
        levels.push(bit.level)?;
    }
    Ok(levels)
}
