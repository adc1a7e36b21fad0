//! The first two lines of a report.
ghost use Rattle.std.specs.Prelude.{◌++◌, codes, decimal};
ghost use Rattle.rsml_meaning.specs.Texts.{text_line};
ghost use Rattle.text_writer.specs.Writes.{Writes};

use text_writer::{Writer, put_line_end, put_number};

// Writes `specification NAME`.
fn put_name<W: Writer>(writer: &mut W, name: &[u8])
    ensures { Writes (W.state writer.old) (W.text writer.old)
        (text_line (codes "specification " ++ name.now)) (W.state writer.new) (W.text writer.new) }
{
    writer.put(b"specification ");
    writer.put(name);
    put_line_end(writer);
}

// Writes `groups N`.
fn put_groups<W: Writer>(writer: &mut W, groups: u32)
    ensures { Writes (W.state writer.old) (W.text writer.old)
        (text_line (codes "groups " ++ decimal groups)) (W.state writer.new) (W.text writer.new) }
{
    writer.put(b"groups ");
    put_number(writer, u64::from(groups));
    put_line_end(writer);
}

/// Writes the lines of a specification's name and of the number of its groups.
pub fn put_head<W: Writer>(writer: &mut W, name: &[u8], groups: u32)
    ensures { Writes (W.state writer.old) (W.text writer.old)
        (text_line (codes "specification " ++ name.now) ++ text_line (codes "groups " ++ decimal groups))
        (W.state writer.new) (W.text writer.new) }
{
    put_name(writer, name);
    put_groups(writer, groups);
}
