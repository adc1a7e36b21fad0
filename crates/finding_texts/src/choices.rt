//! The children that components have in a world.
ghost use Rattle.std.specs.Prelude.{◌≡◌, Some, flat_map, slice_get, zip};
ghost use Rattle.rsml_meaning.specs.Instances.{Component, components};
ghost use Rattle.rsml_meaning.specs.Report.{choice_line};
ghost use Rattle.state_tree.specs.Numbers.{AreChoices, HasChild};
ghost use Rattle.text_writer.specs.Writes.{Writes};
ghost use Rattle.finding_texts.specs.Lines.{child_line};
ghost use Rattle.finding_texts.specs.Numbers.{state_text};

use crate::states::put_state;
use state_tree::Tree;
use text_writer::{Writer, put_line_end};

// Writes a line of the state of a number, as a child that is chosen.
fn put_child<W: Writer>(writer: &mut W, tree: &Tree<'_>, number: u32)
    ensures { Writes (W.state writer.old) (W.text writer.old) (child_line (state_text tree.now number))
        (W.state writer.new) (W.text writer.new) }
{
    writer.put(b"  in ");
    put_state(writer, tree, number);
    writer.put(b" | T");
    put_line_end(writer);
}

// Writes a line of the child at a place of a component, or nothing where it is the first.
fn put_choice<W: Writer>(writer: &mut W, tree: &Tree<'_>, component: u32, place: u8)
    requires { HasChild tree.now component place }
    ensures { (c : Component) → slice_get (components tree.now) component ≡ Some c
        → Writes (W.state writer.old) (W.text writer.old) (choice_line (c, place))
        (W.state writer.new) (W.text writer.new) }
{
    if place != 0 {
        put_child(writer, tree, tree.child(component, place));
    }
}

/// Writes a line for each component that has another child than its first.
pub fn put_choices<W: Writer>(writer: &mut W, tree: &Tree<'_>, choices: &[u8])
    requires { AreChoices tree.now choices.now }
    ensures { Writes (W.state writer.old) (W.text writer.old)
        (flat_map choice_line (zip (components tree.now) choices.now))
        (W.state writer.new) (W.text writer.new) }
{
    for component in 0..tree.components() {
        put_choice(writer, tree, component, choices[component as usize]);
    }
}
