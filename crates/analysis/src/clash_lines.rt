//! The lines of the first clashes.
ghost use Rattle.std.specs.Prelude.{flat_map};
ghost use Rattle.text_writer.specs.Writes.{Writes};
ghost use Rattle.analysis.specs.Lines.{two_events, clash_line_of};

use event_chains::Clash;
use instance_texts::Texts;
use text_writer::{Writer, put_line_end, put_number};

// Writes two events, with a blank before each.
fn put_two<W: Writer>(writer: &mut W, texts: &Texts<'_>, one: u32, two: u32)
    ensures { Writes (W.state writer.old) (W.text writer.old) (two_events texts.now one two)
        (W.state writer.new) (W.text writer.new) }
{
    writer.put(b" ");
    texts.put_event(writer, one);
    writer.put(b" ");
    texts.put_event(writer, two);
}

// Writes `clash START round N ONE TWO`.
fn put_clash<W: Writer>(writer: &mut W, texts: &Texts<'_>, clash: &Clash)
    ensures { Writes (W.state writer.old) (W.text writer.old) (clash_line_of texts.now clash.now)
        (W.state writer.new) (W.text writer.new) }
{
    writer.put(b"clash ");
    texts.put_event(writer, clash.start);
    writer.put(b" round ");
    put_number(writer, u64::from(clash.round));
    put_two(writer, texts, clash.one, clash.two);
    put_line_end(writer);
}

/// Writes a line for each first clash.
pub fn put_clashes<W: Writer>(writer: &mut W, texts: &Texts<'_>, clashes: &[Clash])
    ensures { Writes (W.state writer.old) (W.text writer.old)
        (flat_map (clash_line_of texts.now) clashes.now) (W.state writer.new) (W.text writer.new) }
{
    for clash in clashes {
        put_clash(writer, texts, clash);
    }
}
