//! The last line of a report.
ghost use Rattle.std.specs.Prelude.{◌++◌, codes, decimal};
ghost use Rattle.rsml_meaning.specs.Report.{last_line};
ghost use Rattle.rsml_meaning.specs.Texts.{text_line};
ghost use Rattle.text_writer.specs.Writes.{Writes};

use text_writer::{Writer, put_line_end, put_number};

// Writes `certified`.
fn put_certified<W: Writer>(writer: &mut W)
    ensures { Writes (W.state writer.old) (W.text writer.old) (text_line (codes "certified"))
        (W.state writer.new) (W.text writer.new) }
{
    writer.put(b"certified");
    put_line_end(writer);
}

// Writes `refused N`.
fn put_refused<W: Writer>(writer: &mut W, refusals: u64)
    ensures { Writes (W.state writer.old) (W.text writer.old)
        (text_line (codes "refused " ++ decimal refusals)) (W.state writer.new) (W.text writer.new) }
{
    writer.put(b"refused ");
    put_number(writer, refusals);
    put_line_end(writer);
}

/// Writes the last line, after so many refusals.
pub fn put_last<W: Writer>(writer: &mut W, refusals: u64)
    ensures { Writes (W.state writer.old) (W.text writer.old) (last_line refusals)
        (W.state writer.new) (W.text writer.new) }
{
    if refusals == 0 {
        put_certified(writer);
    } else {
        put_refused(writer, refusals);
    }
}
