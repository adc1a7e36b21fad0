//! The children that components have in a column.
ghost use Rattle.std.specs.Prelude.{◌≡◌, ◌<◌, Some, flat_map, length, slice_get, zip};
ghost use Rattle.rsml_meaning.specs.Instances.{Component, components};
ghost use Rattle.finding_texts.specs.Numbers.{state_text};
ghost use Rattle.state_tree.specs.Numbers.{HasChild};
ghost use Rattle.text_writer.specs.Writes.{Writes};
ghost use Rattle.gap_texts.specs.Fitting.{AreChildren, IsChildOf};
ghost use Rattle.gap_texts.specs.GapText.{child_row, choice_row};

use finding_texts::put_state;
use state_tree::Tree;
use text_writer::{Writer, put_line_end};

// Writes a row of the state of a number, as a child that is asked for.
fn put_child<W: Writer>(writer: &mut W, tree: &Tree<'_>, number: u32)
    ensures { Writes (W.state writer.old) (W.text writer.old) (child_row (state_text tree.now number))
        (W.state writer.new) (W.text writer.new) }
{
    writer.put(b"    in ");
    put_state(writer, tree, number);
    writer.put(b" | T");
    put_line_end(writer);
}

// Writes a row of the child at a place of a component, or nothing where it has no other.
fn put_place<W: Writer>(writer: &mut W, tree: &Tree<'_>, component: u32, place: u8)
    requires { HasChild tree.now component place }
    ensures { (c : Component) → slice_get (components tree.now) component ≡ Some c
        → Writes (W.state writer.old) (W.text writer.old) (choice_row (c, Some place))
        (W.state writer.new) (W.text writer.new) }
{
    let children = tree.children(component);
    if children != 1 {
        put_child(writer, tree, tree.child(component, place));
    }
}

// Writes a row of the child of a component, or nothing where it may have any.
fn put_choice<W: Writer>(writer: &mut W, tree: &Tree<'_>, component: u32, child: Option<u8>)
    requires { IsChildOf tree.now component child }
    ensures { (c : Component) → slice_get (components tree.now) component ≡ Some c
        → Writes (W.state writer.old) (W.text writer.old) (choice_row (c, child))
        (W.state writer.new) (W.text writer.new) }
{
    match child {
        None => {}
        Some(place) => put_place(writer, tree, component, place),
    }
}

/// Writes a row for each component that has one child of several.
pub fn put_choices<W: Writer>(writer: &mut W, tree: &Tree<'_>, children: &[Option<u8>])
    requires { AreChildren tree.now children.now }
    ensures { Writes (W.state writer.old) (W.text writer.old)
        (flat_map choice_row (zip (components tree.now) children.now))
        (W.state writer.new) (W.text writer.new) }
{
    for component in 0..tree.components() {
        put_choice(writer, tree, component, children[component as usize]);
    }
}
