//! The levels of cells.
ghost use Rattle.std.specs.Prelude.{◌≡◌, ◌<◌, false, length};
ghost use Rattle.rsml_meaning.specs.Cells.{cells};
ghost use Rattle.spelled_numbers.specs.Bits.{bits_of};
ghost use Rattle.world_levels.specs.Spelling.{cell_part};

use spelled_numbers::Weighted;
use world_levels::Layout;

/// The levels of a cell, whose weights add.
pub(crate) fn cell_bits<'l>(layout: &'l Layout<'_>, cell: u32) -> &'l [Weighted]
    requires { cell < length (cells layout.now.spec) }
    ensures { result.now ≡ bits_of (cell_part layout.now.spec cell) false layout.now.slots 0 }
{
    layout.law();
    layout.bits(layout.components() + cell)
}
