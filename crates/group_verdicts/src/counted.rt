//! How many members of a group are enabled.
ghost use Rattle.std.specs.Prelude.{ℕ, ◌+◌, ◌<◌, ◌≤◌, IfOk, length};
ghost use Rattle.rsml_meaning.specs.Groups.{groups};
ghost use Rattle.bdd_core.specs.Diagram.{IsRef};
ghost use Rattle.guard_encode.specs.Encoding.{IsMember, Keeps};
ghost use Rattle.group_verdicts.specs.Kept.{AreKept};
ghost use Rattle.group_verdicts.specs.Counts.{AreCounts, AreMembers, HasMembers, IsNext, TellsAt, TellsMember, TellsUpTo, has_more, more_than};

use crate::counts::Counts;
use crate::kept::Kept;
use bdd_core::Ref;
use ground_groups::Member;
use guard_encode::Encoder;
use rsml_base::NoMemory;

/// What is told of so many members, the first of a group.
struct Part {
    members: u32,
    told: Ref,
}

/// Where one member of a group or more is enabled.
pub(crate) fn some_of(
    encoder: &mut Encoder<'_, '_>,
    counts: &mut Counts,
    group: u32,
) -> Result<Ref, NoMemory>
    requires group { group < length (groups encoder.old.machine.base.spec) }
    requires counts { AreCounts encoder.old counts.old }
    ensures keeps { Keeps encoder.old encoder.new }
    ensures counts { AreCounts encoder.new counts.new }
    ensures some { IfOk result (TellsAt encoder.new group (has_more 0)) }
{
    let count = members_of(encoder, group);
    some_of_first(encoder, counts, group, count)
}

/// Where two members of a group or more are enabled. Begins behind the last up to which this is known, and keeps what it finds.
pub(crate) fn two_of(
    encoder: &mut Encoder<'_, '_>,
    counts: &mut Counts,
    group: u32,
) -> Result<Ref, NoMemory>
    requires group { group < length (groups encoder.old.machine.base.spec) }
    requires counts { AreCounts encoder.old counts.old }
    ensures keeps { Keeps encoder.old encoder.new }
    ensures counts { AreCounts encoder.new counts.new }
    ensures two { IfOk result (TellsAt encoder.new group (has_more 1)) }
{
    let machine = encoder.machine();
    machine.law();
    let count = members_of(encoder, group);
    let Part { members, told } = known(encoder, &counts.two, group, count);
    let mut two = told;
    let mut one = some_of_first(encoder, counts, group, members)?;
    for place in members..count {
        let member = member_at(encoder, group, place);
        let enabled = enabled(encoder, counts, member)?;
        two = encoder.ite(enabled, one, two)?;
        one = encoder.or(one, enabled)?;
        counts.some.keep(member, one);
        counts.two.keep(member, two);
    }
    Ok(two)
}

/// Where one or more of so many members, the first of a group, are enabled. Begins behind the last up to which this is known, and
/// keeps what it finds.
fn some_of_first(
    encoder: &mut Encoder<'_, '_>,
    counts: &mut Counts,
    group: u32,
    count: u32,
) -> Result<Ref, NoMemory>
    requires group { group < length (groups encoder.old.machine.base.spec) }
    requires count { HasMembers encoder.old group count }
    requires counts { AreCounts encoder.old counts.old }
    ensures keeps { Keeps encoder.old encoder.new }
    ensures counts { AreCounts encoder.new counts.new }
    ensures some { IfOk result (TellsAt encoder.new group (more_than 0 count)) }
{
    let machine = encoder.machine();
    machine.law();
    let Part { members, told } = known(encoder, &counts.some, group, count);
    let mut some = told;
    for place in members..count {
        let member = member_at(encoder, group, place);
        let enabled = enabled(encoder, counts, member)?;
        some = encoder.or(some, enabled)?;
        counts.some.keep(member, some);
    }
    Ok(some)
}

/// Of so many members, the first of a group, those up to the last of which something is known, or none of them.
fn known(encoder: &Encoder<'_, '_>, kept: &Kept, group: u32, count: u32) -> Part
    requires group { group < length (groups encoder.now.machine.base.spec) }
    requires count { HasMembers encoder.now group count }
    ensures within { result.members ≤ count }
    ensures told { (k : ℕ) → AreKept encoder.now (TellsUpTo k) kept.now → TellsAt encoder.now group (more_than k result.members) result.told }
{
    let mut members = count;
    while members > 0 {
        let member = member_at(encoder, group, members - 1);
        if let Some(told) = kept.get(member) {
            return Part { members, told };
        }
        members -= 1;
    }
    let told = encoder.constant(false);
    Part { members: 0, told }
}

/// Where a member is enabled, which is made once of a transition, and then kept.
fn enabled(
    encoder: &mut Encoder<'_, '_>,
    counts: &mut Counts,
    member: Member,
) -> Result<Ref, NoMemory>
    requires member { IsMember encoder.old.machine member }
    requires counts { AreCounts encoder.old counts.old }
    ensures keeps { Keeps encoder.old encoder.new }
    ensures counts { AreCounts encoder.new counts.new }
    ensures is_ref { IfOk result (IsRef encoder.new.diagram) }
    ensures answer { IfOk result (TellsMember encoder.new member) }
{
    if let Some(enabled) = counts.enabled.get(member) {
        return Ok(enabled);
    }
    let enabled = encoder.enabled(member)?;
    counts.enabled.keep(member, enabled);
    Ok(enabled)
}

/// How many members a group has.
fn members_of(encoder: &Encoder<'_, '_>, group: u32) -> u32
    requires { group < length (groups encoder.now.machine.base.spec) }
    ensures { AreMembers encoder.now group result }
{
    let groups = encoder.machine().groups();
    groups.members(group)
}

/// The member at a place of a group.
fn member_at(encoder: &Encoder<'_, '_>, group: u32, place: u32) -> Member
    requires group { group < length (groups encoder.now.machine.base.spec) }
    requires place { HasMembers encoder.now group (place + 1) }
    ensures next { IsNext encoder.now group place result }
    ensures member { IsMember encoder.now.machine result }
{
    let groups = encoder.machine().groups();
    groups.member(group, place)
}
