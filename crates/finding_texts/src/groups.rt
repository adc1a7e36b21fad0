ghost use Rattle.std.specs.Prelude.{◌≡◌, ◌<◌, Some, length, slice_get};
ghost use Rattle.rsml_meaning.specs.Groups as meaning;
ghost use Rattle.rsml_meaning.specs.Report.{group_text};
ghost use Rattle.text_writer.specs.Writes.{Writes};
ghost use Rattle.finding_texts.specs.Numbers.{kind_text};

use crate::states::put_state;
use elaborate::Machine;
use ground_groups::GroupKind;
use instance_texts::Texts;
use state_tree::Tree;
use text_writer::Writer;

// Writes of what a group is.
fn put_kind<W: Writer>(writer: &mut W, tree: &Tree<'_>, texts: &Texts<'_>, kind: GroupKind)
    requires { tree.now ≡ texts.now }
    ensures { Writes (W.state writer.old) (W.text writer.old) (kind_text texts.now kind)
        (W.state writer.new) (W.text writer.new) }
{
    match kind {
        GroupKind::State { state, event } => {
            put_state(writer, tree, state);
            writer.put(b" on ");
            texts.put_event(writer, event);
        }
        GroupKind::Send { send, event } => {
            writer.put(b"send ");
            texts.put_send(writer, send);
            writer.put(b" on ");
            texts.put_event(writer, event);
        }
        GroupKind::Function(function) => {
            writer.put(b"function ");
            texts.put_function(writer, function);
        }
    }
}

/// Writes of what a group of a machine is.
pub fn put_group<W: Writer>(writer: &mut W, machine: &Machine<'_>, texts: &Texts<'_>, group: u32)
    requires texts { texts.now ≡ machine.now.base.spec }
    requires group { group < length (meaning.groups machine.now.base.spec) }
    ensures { (g : meaning.Group) → slice_get (meaning.groups machine.now.base.spec) group ≡ Some g
        → Writes (W.state writer.old) (W.text writer.old) (group_text g)
        (W.state writer.new) (W.text writer.new) }
{
    let kind = machine.groups().kind(group);
    put_kind(writer, machine.tree(), texts, kind);
}
