ghost use Rattle.text_writer.specs.Writes.{Writes};
ghost use Rattle.reactions.specs.Lines.{part_text, spaced_at};
ghost use Rattle.rsml_meaning.specs.Instances.{events};
ghost use Rattle.reactions.specs.declared.part.Part.TheVariants as part;

use instance_texts::Texts;
use text_writer::{Writer, put_line_end};

/// A part of a line that names one instance, and is the same in each line that names it.
#[derive(Clone, Copy)]
pub enum Part {
    /// The end of the line of an event: a receive behind a space, and the end of the line.
    Receive,
    /// The end of the line of a round: an event behind a space, and the end of the line.
    Event,
    /// The line of the first round where one event is present.
    First,
    /// The beginning of the line of a send, up to its fields.
    Send,
}

/// Writes the event of a number behind a space.
pub fn put_spaced<W: Writer>(writer: &mut W, texts: &Texts<'_>, event: u32)
    ensures { Writes (W.state writer.old) (W.text writer.old) (spaced_at (events texts.now) event)
        (W.state writer.new) (W.text writer.new) }
{
    writer.put(b" ");
    texts.put_event(writer, event);
}

/// Writes a receive behind a space, and ends the line.
fn put_receive_end<W: Writer>(writer: &mut W, texts: &Texts<'_>, receive: u32)
    ensures { Writes (W.state writer.old) (W.text writer.old) (part_text part.Receive texts.now receive)
        (W.state writer.new) (W.text writer.new) }
{
    writer.put(b" ");
    texts.put_receive(writer, receive);
    put_line_end(writer);
}

/// Writes an event behind a space, and ends the line.
fn put_event_end<W: Writer>(writer: &mut W, texts: &Texts<'_>, event: u32)
    ensures { Writes (W.state writer.old) (W.text writer.old) (part_text part.Event texts.now event)
        (W.state writer.new) (W.text writer.new) }
{
    put_spaced(writer, texts, event);
    put_line_end(writer);
}

/// Writes the line of the first round where an event alone is present.
fn put_first<W: Writer>(writer: &mut W, texts: &Texts<'_>, event: u32)
    ensures { Writes (W.state writer.old) (W.text writer.old) (part_text part.First texts.now event)
        (W.state writer.new) (W.text writer.new) }
{
    writer.put(b"  round 1");
    put_event_end(writer, texts, event);
}

/// Writes the beginning of the line of a send.
fn put_send_start<W: Writer>(writer: &mut W, texts: &Texts<'_>, send: u32)
    ensures { Writes (W.state writer.old) (W.text writer.old) (part_text part.Send texts.now send)
        (W.state writer.new) (W.text writer.new) }
{
    writer.put(b"    send ");
    texts.put_send(writer, send);
}

/// Writes the part that names the instance of a number, piece by piece.
#[inline(never)]
pub fn put_part<W: Writer>(writer: &mut W, texts: &Texts<'_>, part: Part, number: u32)
    ensures { Writes (W.state writer.old) (W.text writer.old) (part_text part texts.now number)
        (W.state writer.new) (W.text writer.new) }
{
    match part {
        Part::Receive => put_receive_end(writer, texts, number),
        Part::Event => put_event_end(writer, texts, number),
        Part::First => put_first(writer, texts, number),
        Part::Send => put_send_start(writer, texts, number),
    }
}
