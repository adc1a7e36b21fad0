ghost use Rattle.std.specs.Prelude.{◌≡◌, ℕ, List, Some, ◌++◌, codes, decimal, drop, length, slice_get};
ghost use Rattle.std.specs.Option.{option_copied, option_and_then};
ghost use Rattle.rsml_meaning.specs.Transitions.{TransitionInstance, transitions};
ghost use Rattle.rsml_meaning.specs.Texts.{last_name, path_text, action_text, label, case_label};
ghost use Rattle.state_arrays.specs.Places.{path_at};
ghost use Rattle.rsml_ground.specs.declared.phrases.GroundPhrase as ground;
ghost use Rattle.ground_members.specs.Members.{TransitionIs};
ghost use Rattle.text_writer.specs.Writes.{Writes};
ghost use Rattle.instance_texts.specs.Sources.{StartsBelow};

use crate::steps::put_path;
use ground_members::SharedTransition;
use state_tree::{Nodes, StepRef, Tree};
use text_writer::{Writer, put_number};

/// Writes the label of a case.
pub fn put_case_label<W: Writer>(writer: &mut W, ordinal: u32)
    ensures { Writes (W.state writer.old) (W.text writer.old) (case_label ordinal)
        (W.state writer.new) (W.text writer.new) }
{
    writer.put(b"case ");
    put_number(writer, u64::from(ordinal));
}

// The steps of a path without so many from its front.
fn rest_from<'p, 'a>(path: &'p [StepRef<'a>], count: usize) -> &'p [StepRef<'a>]
    ensures { result.now ≡ drop count path.now }
{
    if count < path.len() {
        &path[count..]
    } else {
        &[]
    }
}

// Writes ` stay ` and the source.
fn put_stay<W: Writer>(writer: &mut W, source: &StepRef<'_>)
    ensures { Writes (W.state writer.old) (W.text writer.old) (codes " stay " ++ source.now.name)
        (W.state writer.new) (W.text writer.new) }
{
    writer.put(b" stay ");
    writer.put(source.name.bytes());
}

// Writes ` move `, the source, and the target from the component on.
fn put_move<W: Writer>(writer: &mut W, source: &StepRef<'_>, target: &[StepRef<'_>])
    ensures { Writes (W.state writer.old) (W.text writer.old)
        (codes " move " ++ (source.now.name ++ (codes " -> " ++ path_text target.now)))
        (W.state writer.new) (W.text writer.new) }
{
    writer.put(b" move ");
    writer.put(source.name.bytes());
    writer.put(b" -> ");
    put_path(writer, target);
}

// Writes a component and an ordinal there.
fn put_start<W: Writer>(writer: &mut W, component: &[StepRef<'_>], ordinal: u32)
    ensures { Writes (W.state writer.old) (W.text writer.old)
        (path_text component.now ++ (codes " " ++ decimal ordinal))
        (W.state writer.new) (W.text writer.new) }
{
    put_path(writer, component);
    writer.put(b" ");
    put_number(writer, u64::from(ordinal));
}

// Writes what a transition does, from a step of a component of so many steps.
fn put_action<W: Writer>(
    writer: &mut W,
    component: usize,
    source: &StepRef<'_>,
    target: Option<&[StepRef<'_>]>,
)
    ensures { (t : TransitionInstance) → length t.component ≡ component → last_name t.source ≡ source.now.name
        → t.target ≡ option_copied target.entry
        → Writes (W.state writer.old) (W.text writer.old) (action_text t)
        (W.state writer.new) (W.text writer.new) }
{
    match target {
        None => put_stay(writer, source),
        Some(target) => put_move(writer, source, rest_from(target, component)),
    }
}

// Writes the label of a transition of these paths, the source of which is a child of the component.
fn put_label_of<W: Writer>(
    writer: &mut W,
    ordinal: u32,
    source: &[StepRef<'_>],
    target: Option<&[StepRef<'_>]>,
)
    ensures { (t : TransitionInstance) → StartsBelow t → t.ordinal ≡ ordinal → t.source ≡ source.now
        → t.target ≡ option_copied target.entry
        → Writes (W.state writer.old) (W.text writer.old) (label t)
        (W.state writer.new) (W.text writer.new) }
{
    match source.split_last() {
        Some((step, component)) => {
            put_start(writer, component, ordinal);
            put_action(writer, component.len(), step, target);
        }
        None => {}
    }
}

// The path of a target, where there is one.
fn target_path<'n>(nodes: &'n Nodes<'_>, target: Option<u32>) -> Option<&'n [StepRef<'n>]>
    ensures { option_copied result ≡ option_and_then (λ node. path_at nodes.now node) target }
{
    match target {
        Some(node) => nodes.path(node),
        None => None,
    }
}

/// Writes the label of a transition.
pub fn put_label<W: Writer>(writer: &mut W, tree: &Tree<'_>, transition: &SharedTransition)
    ensures { (ps : List ground.GroundPhrase) (t : TransitionInstance) (place : ℕ)
        → slice_get (transitions tree.now) place ≡ Some t → TransitionIs ps tree.now t transition.now
        → Writes (W.state writer.old) (W.text writer.old) (label t) (W.state writer.new) (W.text writer.new) }
{
    let nodes = tree.states();
    match nodes.path(transition.source()) {
        Some(source) => put_label_of(
            writer,
            transition.ordinal(),
            source,
            target_path(nodes, transition.target()),
        ),
        None => {}
    }
}
