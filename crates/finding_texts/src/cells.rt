//! The numbers that cells hold in a world.
ghost use Rattle.std.specs.Prelude.{◌≡◌, ◌<◌, Some, flat_map, length, slice_get, zip};
ghost use Rattle.rsml_meaning.specs.Cells as meaning;
ghost use Rattle.rsml_meaning.specs.Report.{cell_line};
ghost use Rattle.text_writer.specs.Writes.{Writes};
ghost use Rattle.finding_texts.specs.Lines.{held_line};

use elaborate::Machine;
use instance_texts::Texts;
use text_writer::{Writer, put_line_end};

// Writes a line of the cell of a number and what it holds.
fn put_held<W: Writer>(writer: &mut W, texts: &Texts<'_>, cell: u32, number: i64)
    ensures { (c : meaning.InputCell) → slice_get (meaning.cells texts.now) cell ≡ Some c
        → Writes (W.state writer.old) (W.text writer.old) (held_line c number)
        (W.state writer.new) (W.text writer.new) }
{
    writer.put(b"  ");
    texts.put_cell(writer, cell);
    writer.put(b" = ");
    texts.put_value(writer, cell, number);
    writer.put(b" | T");
    put_line_end(writer);
}

// Writes a line of a cell and what it holds, or nothing where that is its least number.
fn put_cell<W: Writer>(
    writer: &mut W,
    machine: &Machine<'_>,
    texts: &Texts<'_>,
    cell: u32,
    number: i64,
)
    requires texts { texts.now ≡ machine.now.base.spec }
    requires cell { cell < length (meaning.cells machine.now.base.spec) }
    ensures { (c : meaning.InputCell) → slice_get (meaning.cells machine.now.base.spec) cell ≡ Some c
        → Writes (W.state writer.old) (W.text writer.old) (cell_line (c, number))
        (W.state writer.new) (W.text writer.new) }
{
    let least = machine.worlds().low(cell);
    if number != least {
        put_held(writer, texts, cell, number);
    }
}

/// Writes a line for each cell that holds another number than its least.
pub fn put_cells<W: Writer>(
    writer: &mut W,
    machine: &Machine<'_>,
    texts: &Texts<'_>,
    numbers: &[i64],
)
    requires texts { texts.now ≡ machine.now.base.spec }
    requires numbers { length numbers.now ≡ length (meaning.cells machine.now.base.spec) }
    ensures { Writes (W.state writer.old) (W.text writer.old)
        (flat_map cell_line (zip (meaning.cells machine.now.base.spec) numbers.now))
        (W.state writer.new) (W.text writer.new) }
{
    machine.law();
    for (cell, number) in numbers.iter().enumerate() {
        put_cell(writer, machine, texts, cell as u32, *number);
    }
}
