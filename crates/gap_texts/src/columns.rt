//! The columns of a set of worlds.
ghost use Rattle.std.specs.Prelude.{◌≡◌, flat_map};
ghost use Rattle.rsml_meaning.specs.Words.{numbered};
ghost use Rattle.text_writer.specs.Writes.{Writes};
ghost use Rattle.gap_texts.specs.Fitting.{AreColumns, FitsColumn};
ghost use Rattle.gap_texts.specs.GapText.{column_head, column_text, gap_lines, more_line};

use crate::choices::put_choices;
use crate::spans::put_spans;
use elaborate::Machine;
use instance_texts::Texts;
use text_writer::{Writer, put_line_end, put_number};
use world_columns::{Column, Gaps};

// Writes the first line of a column.
fn put_head<W: Writer>(writer: &mut W, number: u64)
    ensures { Writes (W.state writer.old) (W.text writer.old) (column_head number)
        (W.state writer.new) (W.text writer.new) }
{
    writer.put(b"  column ");
    put_number(writer, number);
    put_line_end(writer);
}

// Writes a column of a number.
fn put_column<W: Writer>(
    writer: &mut W,
    machine: &Machine<'_>,
    texts: &Texts<'_>,
    number: u64,
    column: &Column,
)
    requires texts { texts.now ≡ machine.now.base.spec }
    requires column { FitsColumn machine.now.base.spec column.now }
    ensures { Writes (W.state writer.old) (W.text writer.old)
        (column_text machine.now.base.spec (number, column.now))
        (W.state writer.new) (W.text writer.new) }
{
    put_head(writer, number);
    put_choices(writer, machine.tree(), column.children.as_slice());
    put_spans(writer, machine, texts, column.spans.as_slice());
}

// Writes columns, numbered from 1.
fn put_columns<W: Writer>(
    writer: &mut W,
    machine: &Machine<'_>,
    texts: &Texts<'_>,
    columns: &[Column],
)
    requires texts { texts.now ≡ machine.now.base.spec }
    requires columns { AreColumns machine.now.base.spec columns.now }
    ensures { Writes (W.state writer.old) (W.text writer.old)
        (flat_map (column_text machine.now.base.spec) (numbered columns.now))
        (W.state writer.new) (W.text writer.new) }
{
    for place in 0..columns.len() {
        put_column(writer, machine, texts, place as u64 + 1, &columns[place]);
    }
}

// Writes that there are worlds in no column, where there are.
fn put_more<W: Writer>(writer: &mut W, more: bool)
    ensures { Writes (W.state writer.old) (W.text writer.old) (more_line more)
        (W.state writer.new) (W.text writer.new) }
{
    if more {
        writer.put(b"  more\n");
    }
}

/// Writes the columns of a set of worlds, and whether worlds of it are in none.
pub fn put_gaps<W: Writer>(writer: &mut W, machine: &Machine<'_>, texts: &Texts<'_>, gaps: &Gaps)
    requires texts { texts.now ≡ machine.now.base.spec }
    requires columns { AreColumns machine.now.base.spec gaps.now.columns }
    ensures { Writes (W.state writer.old) (W.text writer.old) (gap_lines machine.now.base.spec gaps.now)
        (W.state writer.new) (W.text writer.new) }
{
    put_columns(writer, machine, texts, gaps.columns.as_slice());
    put_more(writer, gaps.more);
}
