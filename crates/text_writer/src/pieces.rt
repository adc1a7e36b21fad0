ghost use Rattle.std.specs.Prelude.{codes, decimal};
ghost use Rattle.rsml_meaning.specs.Texts.{number_text};
ghost use Rattle.text_writer.specs.Writes.{Writes};

use crate::writer::Writer;
use itoa::Buffer;

/// Writes a number in decimal digits.
pub fn put_number<W: Writer>(writer: &mut W, number: u64)
    ensures { Writes (W.state writer.old) (W.text writer.old) (decimal number) (W.state writer.new) (W.text writer.new) }
{
    let mut buffer = Buffer::new();
    writer.put(buffer.format(number).as_bytes());
}

/// Writes a number in decimal digits, with `-` before a negative one.
pub fn put_signed<W: Writer>(writer: &mut W, number: i64)
    ensures { Writes (W.state writer.old) (W.text writer.old) (number_text number) (W.state writer.new) (W.text writer.new) }
{
    let mut digits = Buffer::new();
    writer.put(digits.format(number).as_bytes());
}

/// Ends a line.
pub fn put_line_end<W: Writer>(writer: &mut W)
    ensures { Writes (W.state writer.old) (W.text writer.old) (codes "\n") (W.state writer.new) (W.text writer.new) }
{
    writer.put(b"\n");
}
