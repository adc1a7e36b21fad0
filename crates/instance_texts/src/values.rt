ghost use Rattle.std.specs.Prelude.{[], slice_index_or};
ghost use Rattle.rsml_meaning.specs.Texts.{value_text};
ghost use Rattle.text_writer.specs.Writes.{Writes};

use rsml_syntax::Text;
use text_writer::{Writer, put_signed};

// Writes the name at a place, or nothing where there is none.
fn put_name<W: Writer>(writer: &mut W, names: &[Text], place: usize)
    ensures { Writes (W.state writer.old) (W.text writer.old) (slice_index_or names.now place [])
        (W.state writer.new) (W.text writer.new) }
{
    match names.get(place) {
        Some(name) => writer.put(name.bytes()),
        None => {}
    }
}

/// Writes a number by its name among these, or by its digits where there are no names.
pub fn put_value<W: Writer>(writer: &mut W, names: &[Text], number: i64)
    ensures { Writes (W.state writer.old) (W.text writer.old) (value_text names.now number)
        (W.state writer.new) (W.text writer.new) }
{
    if names.is_empty() {
        put_signed(writer, number);
    } else {
        put_name(writer, names, number.unsigned_abs() as usize);
    }
}
