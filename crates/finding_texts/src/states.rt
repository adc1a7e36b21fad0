ghost use Rattle.text_writer.specs.Writes.{Writes};
ghost use Rattle.finding_texts.specs.Numbers.{state_text};

use instance_texts::put_path;
use state_tree::Tree;
use text_writer::Writer;

/// Writes the path of the state of a number. Nothing where there is none.
pub fn put_state<W: Writer>(writer: &mut W, tree: &Tree<'_>, number: u32)
    ensures { Writes (W.state writer.old) (W.text writer.old) (state_text tree.now number)
        (W.state writer.new) (W.text writer.new) }
{
    match tree.states().path(number) {
        Some(path) => put_path(writer, path),
        None => {}
    }
}
