//! The first difference of two machines.
ghost use Rattle.std.specs.Prelude.{◌≡◌, Bool, false, not, if◌then◌else◌, IfOk, IfSome, MatchOption, length};
ghost use Rattle.std.specs.List.{AllZip};
ghost use Rattle.rsml_syntax.specs.declared.world.World.{World as SpecWorld};
ghost use Rattle.rsml_meaning.specs.Worlds.{IsWorld};
ghost use Rattle.rsml_meaning.specs.Groups as meaning;
ghost use Rattle.spec_frames.specs.Frames.{HaveSameFrame};
ghost use Rattle.equal_frames.specs.Alike.{HaveSameWorlds};
ghost use Rattle.equal_frames.specs.Differences.{Difference, IsDifference, NoDifference, all_members};
ghost use Rattle.bdd_core.specs.Diagram.{IsRef};
ghost use Rattle.ground_groups.specs.Groups.{MemberIs};
ghost use Rattle.guard_encode.specs.Encoding.{IsMember, Keeps, Tells};
ghost use Rattle.guard_encode.specs.Others.{TellPhrases};
ghost use Rattle.group_verdicts.specs.Least.{IsLeastWorld};
ghost use Rattle.same_spec.specs.Found.{DifferFirst, IsFound, NeverDiffer};

use crate::found::Found;
use crate::members::members_of;
use bdd_core::Ref;
use elaborate::Machine;
use equal_frames::frame_laws;
use ground_groups::Member;
use group_verdicts::least_world;
use guard_encode::{Encoder, OtherPhrases};
use level_order::{PlanOfTwo, plan_of_two};
use rsml_base::NoMemory;
use rsml_syntax::World;
use std::alloc::Global;

/// The first member that differs from the one at its place in the other of two machines of one frame, in the order transitions, cases of
/// sends, cases of functions, with the least world in which it does. None exactly where no member differs in any world. The only error
/// is out of memory.
pub fn first_difference(
    alloc: Global,
    one: &Machine<'_>,
    two: &Machine<'_>,
) -> Result<Option<Found>, NoMemory>
    requires { HaveSameFrame one.now.base.spec two.now.base.spec }
    ensures { IfOk result (λ found. MatchOption found (NoDifference one.now.base.spec two.now.base.spec)
        (λ x. (d : Difference) × IsFound one.now.base.spec x d × IsDifference one.now.base.spec two.now.base.spec d)) }
{
    one.law();
    two.law();
    frame_laws();
    let both = plan_of_two(alloc, one, two)?;
    let PlanOfTwo { plan, alike } = both;
    let mut encoder = Encoder::with(alloc, one, plan, 0)?;
    let phrases = encoder.phrases_of(alloc, two, alike.as_slice())?;
    let members = members_of(alloc, one)?;
    let others = members_of(alloc, two)?;
    first_of(
        alloc,
        &mut encoder,
        two,
        &phrases,
        members.as_slice(),
        others.as_slice(),
    )
}

/// The same, where these are the members of the two.
fn first_of(
    alloc: Global,
    encoder: &mut Encoder<'_, '_>,
    two: &Machine<'_>,
    phrases: &OtherPhrases,
    members: &[Member],
    others: &[Member],
) -> Result<Option<Found>, NoMemory>
    requires worlds { HaveSameWorlds encoder.old.machine.base.spec two.now.base.spec }
    requires phrases { TellPhrases encoder.old two.now.base phrases.now }
    requires members { AllZip (MemberIs encoder.old.machine.base.spec) (all_members encoder.old.machine.base.spec) members.now }
    requires others { AllZip (MemberIs two.now.base.spec) (all_members two.now.base.spec) others.now }
    requires many { length members.now ≡ length others.now }
    ensures { IfOk result (λ found. MatchOption found (NoDifference encoder.old.machine.base.spec two.now.base.spec)
        (λ x. (d : Difference) × IsFound encoder.old.machine.base.spec x d
        × IsDifference encoder.old.machine.base.spec two.now.base.spec d)) }
{
    for place in 0..members.len() {
        let member = members[place];
        let other = others[place];
        if let Some(found) = difference_of(alloc, encoder, two, phrases, member, other)? {
            return Ok(Some(found));
        }
    }
    Ok(None)
}

/// The least world in which two members differ, if there is one.
pub(crate) fn difference_of(
    alloc: Global,
    encoder: &mut Encoder<'_, '_>,
    two: &Machine<'_>,
    phrases: &OtherPhrases,
    member: Member,
    other: Member,
) -> Result<Option<Found>, NoMemory>
    requires worlds { HaveSameWorlds encoder.old.machine.base.spec two.now.base.spec }
    requires phrases { TellPhrases encoder.old two.now.base phrases.now }
    requires member { IsMember encoder.old.machine member }
    requires other { IsMember two.now other }
    ensures keeps { Keeps encoder.old encoder.new }
    ensures member { IfOk result (λ found. IfSome found (λ x. x.member ≡ member)) }
    ensures answer { IfOk result (λ found. (m n : meaning.Member) → MemberIs encoder.old.machine.base.spec m member → MemberIs two.now.base.spec n other
        → MatchOption found (NeverDiffer encoder.old.machine.base.spec two.now.base.spec m n)
        (DifferFirst encoder.old.machine.base.spec two.now.base.spec m n)) }
{
    let here = encoder.enabled(member)?;
    let there = encoder.enabled_of(two, phrases, other)?;
    if encoder.are_one(here, there) {
        return Ok(None);
    }
    let found = least_difference(alloc, encoder, here, there)?;
    match found {
        None => Ok(None),
        Some(world) => {
            let first = encoder.holds(here, &world);
            Ok(Some(Found {
                member,
                world,
                first,
            }))
        }
    }
}

/// The least world in which one function is true and the other is not, if there is one.
fn least_difference(
    alloc: Global,
    encoder: &mut Encoder<'_, '_>,
    here: Ref,
    there: Ref,
) -> Result<Option<World>, NoMemory>
    requires here { IsRef encoder.old.diagram here }
    requires there { IsRef encoder.old.diagram there }
    ensures keeps { Keeps encoder.old encoder.new }
    ensures answer { IfOk result (λ found. (one other : SpecWorld → Bool) → Tells encoder.old one here → Tells encoder.old other there
        → MatchOption found ((w : SpecWorld) → IsWorld encoder.new.machine.base.spec w → (if one w then not (other w) else other w) ≡ false)
        (IsLeastWorld encoder.new.machine.base.spec (λ w. if one w then not (other w) else other w))) }
{
    let elsewhere = encoder.not(there)?;
    let differ = encoder.ite(here, elsewhere, there)?;
    let decided = encoder.decided(alloc, differ)?;
    least_world(alloc, encoder, decided)
}
