//! The numbers that cells hold in a column.
ghost use Rattle.std.specs.Prelude.{◌≡◌, ◌<◌, Some, codes, flat_map, length, slice_get, zip};
ghost use Rattle.rsml_meaning.specs.Cells as meaning;
ghost use Rattle.text_writer.specs.Writes.{Writes};
ghost use Rattle.gap_texts.specs.GapText.{cell_row, end_row, one_row, span_rows};

use elaborate::Machine;
use instance_texts::Texts;
use text_writer::{Writer, put_line_end};
use world_columns::Span;

// Writes a row of the cell of a number, a relation and a number that it holds.
fn put_row<W: Writer>(writer: &mut W, texts: &Texts<'_>, cell: u32, relation: &[u8], number: i64)
    ensures { (c : meaning.InputCell) → slice_get (meaning.cells texts.now) cell ≡ Some c
        → Writes (W.state writer.old) (W.text writer.old) (cell_row c relation.now number)
        (W.state writer.new) (W.text writer.new) }
{
    writer.put(b"    ");
    texts.put_cell(writer, cell);
    writer.put(relation);
    texts.put_value(writer, cell, number);
    writer.put(b" | T");
    put_line_end(writer);
}

// Writes a row of an end of a span, or nothing where it is that of the type.
fn put_end<W: Writer>(
    writer: &mut W,
    texts: &Texts<'_>,
    cell: u32,
    relation: &[u8],
    number: i64,
    end: i64,
)
    ensures { (c : meaning.InputCell) → slice_get (meaning.cells texts.now) cell ≡ Some c
        → Writes (W.state writer.old) (W.text writer.old) (end_row c relation.now number end)
        (W.state writer.new) (W.text writer.new) }
{
    if number != end {
        put_row(writer, texts, cell, relation, number);
    }
}

// Writes a row of one number, or nothing where the type has no other.
fn put_one<W: Writer>(
    writer: &mut W,
    texts: &Texts<'_>,
    cell: u32,
    number: i64,
    low: i64,
    high: i64,
)
    ensures { (c : meaning.InputCell) → slice_get (meaning.cells texts.now) cell ≡ Some c
        → Writes (W.state writer.old) (W.text writer.old) (one_row c number low high)
        (W.state writer.new) (W.text writer.new) }
{
    if number != low {
        put_row(writer, texts, cell, b" = ", number);
    } else {
        put_end(writer, texts, cell, b" = ", number, high);
    }
}

// Writes the rows of the numbers that a cell may hold, or nothing where these are all of its type.
fn put_span<W: Writer>(
    writer: &mut W,
    machine: &Machine<'_>,
    texts: &Texts<'_>,
    cell: u32,
    span: &Span,
)
    requires texts { texts.now ≡ machine.now.base.spec }
    requires cell { cell < length (meaning.cells machine.now.base.spec) }
    ensures { (c : meaning.InputCell) → slice_get (meaning.cells machine.now.base.spec) cell ≡ Some c
        → Writes (W.state writer.old) (W.text writer.old) (span_rows (c, span.now))
        (W.state writer.new) (W.text writer.new) }
{
    let Span { low, high } = *span;
    let least = machine.worlds().low(cell);
    let greatest = machine.worlds().high(cell);
    if low != high {
        put_end(writer, texts, cell, b" >= ", low, least);
        put_end(writer, texts, cell, b" <= ", high, greatest);
    } else {
        put_one(writer, texts, cell, low, least, greatest);
    }
}

/// Writes the rows of each cell that may not hold all numbers of its type.
pub fn put_spans<W: Writer>(
    writer: &mut W,
    machine: &Machine<'_>,
    texts: &Texts<'_>,
    spans: &[Span],
)
    requires texts { texts.now ≡ machine.now.base.spec }
    requires spans { length spans.now ≡ length (meaning.cells machine.now.base.spec) }
    ensures { Writes (W.state writer.old) (W.text writer.old)
        (flat_map span_rows (zip (meaning.cells machine.now.base.spec) spans.now))
        (W.state writer.new) (W.text writer.new) }
{
    machine.law();
    for cell in 0..spans.len() {
        put_span(writer, machine, texts, cell as u32, &spans[cell]);
    }
}
