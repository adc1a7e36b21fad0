//! The members of a group that are enabled in a world.
ghost use Rattle.std.specs.Prelude.{◌≡◌, ◌+◌, ◌<◌, Some, length, slice_get};
ghost use Rattle.rsml_meaning.specs.Truth.{view};
ghost use Rattle.rsml_meaning.specs.Worlds.{IsWorld};
ghost use Rattle.rsml_meaning.specs.Groups as meaning;
ghost use Rattle.rsml_meaning.specs.Texts.{case_label};
ghost use Rattle.rsml_meaning.specs.Report.{enabled_text, member_label};
ghost use Rattle.rsml_ground.specs.Truths.{truths_in};
ghost use Rattle.ground_groups.specs.Groups.{MemberIs};
ghost use Rattle.text_writer.specs.Writes.{Writes};
ghost use Rattle.finding_texts.specs.Lines.{member_line, line_if_enabled};
ghost use Rattle.finding_texts.specs.Members.{IsMember};

use crate::enabled::is_enabled;
use and_or_tables::Truths;
use elaborate::{Machine, members_are_enabled_as_in_the_text};
use ground_groups::Member;
use instance_texts::{put_case_label, put_label};
use rsml_syntax::World;
use text_writer::{Writer, put_line_end, put_number};

// Writes the label of the case at a place of a function.
fn put_case_at<W: Writer>(writer: &mut W, place: u32)
    ensures { Writes (W.state writer.old) (W.text writer.old) (case_label (place + 1))
        (W.state writer.new) (W.text writer.new) }
{
    writer.put(b"case ");
    put_number(writer, u64::from(place) + 1);
}

/// Writes the label of a member.
pub fn put_member<W: Writer>(writer: &mut W, machine: &Machine<'_>, member: Member)
    requires { IsMember machine.now.base.spec member }
    ensures { (m : meaning.Member) → MemberIs machine.now.base.spec m member
        → Writes (W.state writer.old) (W.text writer.old) (member_label m)
        (W.state writer.new) (W.text writer.new) }
{
    machine.law();
    match member {
        Member::Transition(number) => {
            put_label(writer, machine.tree(), machine.transition(number));
        }
        Member::SendCase(number) => put_case_label(writer, machine.send_case(number).ordinal()),
        Member::FunctionCase { place, .. } => put_case_at(writer, place),
    }
}

// Writes a line of a member that is enabled.
fn put_member_line<W: Writer>(writer: &mut W, machine: &Machine<'_>, member: Member)
    requires { IsMember machine.now.base.spec member }
    ensures { (m : meaning.Member) → MemberIs machine.now.base.spec m member
        → Writes (W.state writer.old) (W.text writer.old) (member_line m)
        (W.state writer.new) (W.text writer.new) }
{
    writer.put(b"  enabled ");
    put_member(writer, machine, member);
    put_line_end(writer);
}

// Writes a line of a member, or nothing where it is not enabled.
fn put_if_enabled<W: Writer>(
    writer: &mut W,
    machine: &Machine<'_>,
    world: &World,
    truths: &Truths,
    member: Member,
)
    requires world { IsWorld machine.now.base.spec world.now }
    requires truths { truths.now ≡ truths_in machine.now.base world.now }
    requires member { IsMember machine.now.base.spec member }
    ensures { (m : meaning.Member) → MemberIs machine.now.base.spec m member
        → Writes (W.state writer.old) (W.text writer.old)
        (line_if_enabled (view machine.now.base.spec world.now) m)
        (W.state writer.new) (W.text writer.new) }
{
    machine.law();
    members_are_enabled_as_in_the_text();
    if is_enabled(machine, world, truths, member) {
        put_member_line(writer, machine, member);
    }
}

/// Writes a line for each member of a group that is enabled in a world, by the truths there of all phrases.
pub fn put_enabled<W: Writer>(
    writer: &mut W,
    machine: &Machine<'_>,
    world: &World,
    truths: &Truths,
    group: u32,
)
    requires world { IsWorld machine.now.base.spec world.now }
    requires truths { truths.now ≡ truths_in machine.now.base world.now }
    requires group { group < length (meaning.groups machine.now.base.spec) }
    ensures { (g : meaning.Group) → slice_get (meaning.groups machine.now.base.spec) group ≡ Some g
        → Writes (W.state writer.old) (W.text writer.old)
        (enabled_text machine.now.base.spec g world.now)
        (W.state writer.new) (W.text writer.new) }
{
    let groups = machine.groups();
    for place in 0..groups.members(group) {
        put_if_enabled(writer, machine, world, truths, groups.member(group, place));
    }
}
