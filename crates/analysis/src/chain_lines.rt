//! The lines of the external events with their lengths.
ghost use Rattle.std.specs.Prelude.{flat_map};
ghost use Rattle.rsml_meaning.specs.Report.{length_text};
ghost use Rattle.text_writer.specs.Writes.{Writes};
ghost use Rattle.analysis.specs.Lines.{chain_line_of};

use event_chains::External;
use instance_texts::Texts;
use text_writer::{Writer, put_line_end, put_number};

// Writes the length of an event, or `endless` where it has none.
fn put_length<W: Writer>(writer: &mut W, length: Option<u32>)
    ensures { Writes (W.state writer.old) (W.text writer.old) (length_text length)
        (W.state writer.new) (W.text writer.new) }
{
    match length {
        Some(length) => put_number(writer, u64::from(length)),
        None => writer.put(b"endless"),
    }
}

// Writes `chain EVENT L`.
fn put_chain<W: Writer>(writer: &mut W, texts: &Texts<'_>, external: &External)
    ensures { Writes (W.state writer.old) (W.text writer.old) (chain_line_of texts.now external.now)
        (W.state writer.new) (W.text writer.new) }
{
    writer.put(b"chain ");
    texts.put_event(writer, external.event);
    writer.put(b" ");
    put_length(writer, external.length);
    put_line_end(writer);
}

/// Writes a line for each external event.
pub fn put_chains<W: Writer>(writer: &mut W, texts: &Texts<'_>, externals: &[External])
    ensures { Writes (W.state writer.old) (W.text writer.old)
        (flat_map (chain_line_of texts.now) externals.now) (W.state writer.new) (W.text writer.new) }
{
    for external in externals {
        put_chain(writer, texts, external);
    }
}
