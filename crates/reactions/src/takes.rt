ghost use Rattle.std.specs.Prelude.{◌≡◌, ℕ, List, Some, ◌++◌, codes, slice_get};
ghost use Rattle.rsml_meaning.specs.Texts.{label, text_line};
ghost use Rattle.rsml_meaning.specs.Transitions.{TransitionInstance, transitions};
ghost use Rattle.rsml_ground.specs.declared.phrases.GroundPhrase as ground;
ghost use Rattle.ground_members.specs.Members.{TransitionIs};
ghost use Rattle.text_writer.specs.Writes.{Writes};
ghost use Rattle.reactions.specs.Lines.{take_line};

use elaborate::Machine;
use ground_members::SharedTransition;
use instance_texts::put_label;
use state_tree::Tree;
use text_writer::{Writer, put_line_end};

/// Writes the line of a transition.
fn put_line<W: Writer>(writer: &mut W, tree: &Tree<'_>, transition: &SharedTransition)
    ensures { (ps : List ground.GroundPhrase) (t : TransitionInstance) (place : ℕ)
        → slice_get (transitions tree.now) place ≡ Some t → TransitionIs ps tree.now t transition.now
        → Writes (W.state writer.old) (W.text writer.old) (text_line (codes "    take " ++ label t))
        (W.state writer.new) (W.text writer.new) }
{
    writer.put(b"    take ");
    put_label(writer, tree, transition);
    put_line_end(writer);
}

/// Writes the line of the transition of a number. Nothing where there is none.
#[inline(never)]
pub fn put_take<W: Writer>(writer: &mut W, machine: &Machine<'_>, transition: u32)
    ensures { Writes (W.state writer.old) (W.text writer.old) (take_line machine.now.base.spec transition)
        (W.state writer.new) (W.text writer.new) }
{
    machine.law();
    match machine.all_transitions().get(transition as usize) {
        Some(taken) => put_line(writer, machine.tree(), taken),
        None => {}
    }
}
