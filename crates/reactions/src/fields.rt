ghost use Rattle.std.specs.Prelude.{◌++◌, codes, flat_map};
ghost use Rattle.rsml_meaning.specs.Words.{numbered_from};
ghost use Rattle.text_writer.specs.Writes.{Writes};
ghost use Rattle.reactions.specs.Lines.{field_at, number_at};

use instance_texts::SentTexts;
use rsml_syntax::Text;
use text_writer::Writer;

/// Writes ` Name=value` of the field at a place of the case of a number, with its name.
fn put_named<W: Writer>(
    writer: &mut W,
    sent: &SentTexts<'_>,
    name: &Text,
    case: u32,
    place: usize,
    number: i64,
)
    ensures { Writes (W.state writer.old) (W.text writer.old)
        (codes " " ++ (name.now ++ (codes "=" ++ number_at sent.now case place number)))
        (W.state writer.new) (W.text writer.new) }
{
    writer.put(b" ");
    writer.put(name.bytes());
    writer.put(b"=");
    sent.put_sent(writer, case, place, number);
}

/// Writes ` Name=value` of the field at a place of the case of a number. Nothing where there is no such field.
fn put_field<W: Writer>(writer: &mut W, sent: &SentTexts<'_>, case: u32, place: usize, number: i64)
    ensures { Writes (W.state writer.old) (W.text writer.old) (field_at sent.now case (place, number))
        (W.state writer.new) (W.text writer.new) }
{
    match sent.field_name(case, place) {
        Some(name) => put_named(writer, sent, name, case, place, number),
        None => {}
    }
}

/// Writes the fields of the case of a number, with these numbers.
pub fn put_fields<W: Writer>(writer: &mut W, sent: &SentTexts<'_>, case: u32, numbers: &[i64])
    ensures { Writes (W.state writer.old) (W.text writer.old)
        (flat_map (field_at sent.now case) (numbered_from 0 numbers.now))
        (W.state writer.new) (W.text writer.new) }
{
    for (place, number) in numbers.iter().enumerate() {
        put_field(writer, sent, case, place, *number);
    }
}
