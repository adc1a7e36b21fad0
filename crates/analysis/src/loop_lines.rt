//! The lines of the events that loop.
ghost use Rattle.std.specs.Prelude.{flat_map};
ghost use Rattle.text_writer.specs.Writes.{Writes};
ghost use Rattle.analysis.specs.Lines.{loop_line_of};

use instance_texts::Texts;
use text_writer::{Writer, put_line_end};

// Writes `loop EVENT`.
fn put_loop<W: Writer>(writer: &mut W, texts: &Texts<'_>, event: u32)
    ensures { Writes (W.state writer.old) (W.text writer.old) (loop_line_of texts.now event)
        (W.state writer.new) (W.text writer.new) }
{
    writer.put(b"loop ");
    texts.put_event(writer, event);
    put_line_end(writer);
}

/// Writes a line for each event that loops.
pub fn put_loops<W: Writer>(writer: &mut W, texts: &Texts<'_>, loops: &[u32])
    ensures { Writes (W.state writer.old) (W.text writer.old)
        (flat_map (loop_line_of texts.now) loops.now) (W.state writer.new) (W.text writer.new) }
{
    for event in loops {
        put_loop(writer, texts, *event);
    }
}
