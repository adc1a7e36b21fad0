ghost use Rattle.std.specs.Prelude.{◌++◌, codes, decimal, flat_map};
ghost use Rattle.rsml_meaning.specs.Words.{at};
ghost use Rattle.rsml_meaning.specs.Texts.{instance_text, path_text};
ghost use Rattle.text_writer.specs.Writes.{Writes};
ghost use Rattle.instance_texts.specs.Dotted.{dotted};

use state_tree::StepRef;
use text_writer::{Writer, put_number};

/// Writes a name with an index.
fn put_indexed<W: Writer>(writer: &mut W, name: &[u8], index: u8)
    ensures { Writes (W.state writer.old) (W.text writer.old)
        (name.now ++ (codes "[" ++ (decimal index ++ codes "]"))) (W.state writer.new) (W.text writer.new) }
{
    writer.put(name);
    writer.put(b"[");
    put_number(writer, u64::from(index));
    writer.put(b"]");
}

/// Writes an instance: its name, with its index where that is not 0.
pub fn put_instance<W: Writer>(writer: &mut W, name: &[u8], index: u8)
    ensures { Writes (W.state writer.old) (W.text writer.old) (instance_text (at name.now index))
        (W.state writer.new) (W.text writer.new) }
{
    if index == 0 {
        writer.put(name);
    } else {
        put_indexed(writer, name, index);
    }
}

/// Writes steps with `.` before each.
fn put_further<W: Writer>(writer: &mut W, steps: &[StepRef<'_>])
    ensures { Writes (W.state writer.old) (W.text writer.old)
        (flat_map dotted steps.now) (W.state writer.new) (W.text writer.new) }
{
    for step in steps {
        writer.put(b".");
        put_instance(writer, step.name.bytes(), step.index);
    }
}

/// Writes a path: its steps with `.` between each two.
pub fn put_path<W: Writer>(writer: &mut W, steps: &[StepRef<'_>])
    ensures { Writes (W.state writer.old) (W.text writer.old) (path_text steps.now)
        (W.state writer.new) (W.text writer.new) }
{
    match steps.split_first() {
        Some((first, further)) => {
            put_instance(writer, first.name.bytes(), first.index);
            put_further(writer, further);
        }
        None => {}
    }
}
