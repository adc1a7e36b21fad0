//! The members of two machines that differ.
ghost use Rattle.std.specs.Prelude.{◌≡◌, length};
ghost use Rattle.std.specs.List.{AllZip};
ghost use Rattle.spec_frames.specs.Frames.{HaveSameFrame};
ghost use Rattle.equal_frames.specs.Alike.{HaveSameWorlds};
ghost use Rattle.equal_frames.specs.Differences.{all_members};
ghost use Rattle.ground_groups.specs.Groups.{MemberIs};
ghost use Rattle.guard_encode.specs.Others.{TellPhrases};

use crate::difference::difference_of;
use crate::found::Found;
use crate::members::members_of;
use elaborate::Machine;
use equal_frames::frame_laws;
use ground_groups::Member;
use guard_encode::{Encoder, OtherPhrases};
use level_order::{PlanOfTwo, plan_of_two};
use rsml_base::NoMemory;
use std::alloc::Global;

/// The members that differ from those at their places in another machine.
#[derive(Drop)]
pub struct Listed {
    /// The first of them, each with the least world in which it differs.
    pub found: Vec<Found>,
    /// For each of these, the one at its place in the other machine.
    pub others: Vec<Member>,
    /// How many members differ.
    pub differing: usize,
    /// How many members there are.
    pub members: usize,
}

/// Adds a member that differs, with the one at its place. At most so many are kept.
fn add(listed: &mut Listed, found: Found, other: Member, most: usize) -> Result<(), NoMemory> {
    if listed.differing < most {
        listed.found.push(found)?;
        listed.others.push(other)?;
    }
    listed.differing = listed.differing.saturating_add(1);
    Ok(())
}

/// Lists the members that differ, where these are the members of the two.
fn list(
    alloc: Global,
    encoder: &mut Encoder<'_, '_>,
    two: &Machine<'_>,
    phrases: &OtherPhrases,
    members: &[Member],
    others: &[Member],
    most: usize,
) -> Result<Listed, NoMemory>
    requires worlds { HaveSameWorlds encoder.old.machine.base.spec two.now.base.spec }
    requires phrases { TellPhrases encoder.old two.now.base phrases.now }
    requires members { AllZip (MemberIs encoder.old.machine.base.spec) (all_members encoder.old.machine.base.spec) members.now }
    requires others { AllZip (MemberIs two.now.base.spec) (all_members two.now.base.spec) others.now }
    requires many { length members.now ≡ length others.now }
{
    let mut listed = Listed {
        found: Vec::new(alloc),
        others: Vec::new(alloc),
        differing: 0,
        members: members.len(),
    };
    for place in 0..members.len() {
        let member = members[place];
        let other = others[place];
        if let Some(found) = difference_of(alloc, encoder, two, phrases, member, other)? {
            add(&mut listed, found, other, most)?;
        }
    }
    Ok(listed)
}

/// The members that differ from those at their places in the other of two machines of one frame: the first of them, at most so many, and
/// how many there are. The only error is out of memory.
pub fn differences(
    alloc: Global,
    one: &Machine<'_>,
    two: &Machine<'_>,
    most: usize,
) -> Result<Listed, NoMemory>
    requires { HaveSameFrame one.now.base.spec two.now.base.spec }
{
    one.law();
    two.law();
    frame_laws();
    let both = plan_of_two(alloc, one, two)?;
    let PlanOfTwo { plan, alike } = both;
    let mut encoder = Encoder::with(alloc, one, plan, 0)?;
    let phrases = encoder.phrases_of(alloc, two, alike.as_slice())?;
    let members = members_of(alloc, one)?;
    let others = members_of(alloc, two)?;
    list(
        alloc,
        &mut encoder,
        two,
        &phrases,
        members.as_slice(),
        others.as_slice(),
        most,
    )
}
