//! The text of a difference.
ghost use Rattle.std.specs.Prelude.{◌≡◌, IfOk};
ghost use Rattle.rsml_meaning.specs.Groups as meaning;
ghost use Rattle.ground_groups.specs.Groups.{MemberIs};
ghost use Rattle.equal_frames.specs.Differences.{Difference};
ghost use Rattle.finding_texts.specs.Members.{IsMember};
ghost use Rattle.same_spec.specs.Found.{IsFound};
ghost use Rattle.text_writer.specs.Writes.{Writes};
ghost use Rattle.comparing.specs.DifferenceText as spec;
ghost use Rattle.comparing.specs.Steps.{TellsDifference};

use elaborate::Machine;
use finding_texts::{put_member, put_world};
use ground_groups::Member;
use instance_texts::Texts;
use rsml_syntax::NoMemory;
use same_spec::Found;
use std::alloc::Global;
use text_writer::{Draft, Writer, put_line_end};

// Writes of which send or function a case is, nothing of a transition.
fn put_owner<W: Writer>(writer: &mut W, machine: &Machine<'_>, texts: &Texts<'_>, member: Member)
    requires texts { texts.now ≡ machine.now.base.spec }
    requires member { IsMember machine.now.base.spec member }
    ensures { (m : meaning.Member) → MemberIs machine.now.base.spec m member
        → Writes (W.state writer.old) (W.text writer.old) (spec.owner_text m)
        (W.state writer.new) (W.text writer.new) }
{
    machine.law();
    match member {
        Member::Transition(_) => {}
        Member::SendCase(number) => {
            writer.put(b"send ");
            texts.put_send(writer, machine.send_case(number).send());
            writer.put(b" ");
        }
        Member::FunctionCase { function, .. } => {
            writer.put(b"function ");
            texts.put_function(writer, function);
            writer.put(b" ");
        }
    }
}

// Writes which member differs.
fn put_head<W: Writer>(writer: &mut W, machine: &Machine<'_>, texts: &Texts<'_>, member: Member)
    requires texts { texts.now ≡ machine.now.base.spec }
    requires member { IsMember machine.now.base.spec member }
    ensures { (m : meaning.Member) → MemberIs machine.now.base.spec m member
        → Writes (W.state writer.old) (W.text writer.old) (spec.differ_line m)
        (W.state writer.new) (W.text writer.new) }
{
    writer.put(b"differ ");
    put_owner(writer, machine, texts, member);
    put_member(writer, machine, member);
    put_line_end(writer);
}

// In which of the two the member is enabled.
fn side(first: bool) -> &'static [u8]
    ensures { result.now ≡ spec.side_text first }
{
    if first {
        b"  enabled first"
    } else {
        b"  enabled second"
    }
}

// Writes in which of the two the member is enabled.
fn put_side<W: Writer>(writer: &mut W, first: bool)
    ensures { Writes (W.state writer.old) (W.text writer.old) (spec.side_line first)
        (W.state writer.new) (W.text writer.new) }
{
    writer.put(side(first));
    put_line_end(writer);
}

/// The text of a difference that is found of a machine and another. The only error is out of memory.
pub fn difference_text(
    alloc: Global,
    machine: &Machine<'_>,
    texts: &Texts<'_>,
    found: &Found,
) -> Result<Vec<u8>, NoMemory>
    requires texts { texts.now ≡ machine.now.base.spec }
    requires found { TellsDifference machine.now.base.spec found.now }
    ensures { IfOk result (λ t. (d : Difference) → IsFound machine.now.base.spec found.now d
        → t.items ≡ spec.difference_text machine.now.base.spec d) }
{
    let mut draft = Draft::new(alloc);
    put_head(&mut draft, machine, texts, found.member);
    put_world(&mut draft, machine, texts, &found.world);
    put_side(&mut draft, found.first);
    draft.finish()
}
