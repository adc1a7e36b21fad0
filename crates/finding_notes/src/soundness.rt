//! Whether a group would be sound with a row more in the table of a member, and which columns would still be true.
ghost use Rattle.std.specs.Prelude.{◌<◌, IfOk, length};
ghost use Rattle.bdd_core.specs.Diagram.{IsRef};
ghost use Rattle.rsml_meaning.specs.Groups.{groups};
ghost use Rattle.guard_encode.specs.Encoding.{Keeps};

use crate::diagrams::{Added, columns, whole_column};
use bdd_core::Ref;
use ground_groups::Member;
use guard_encode::Encoder;
use rsml_base::NoMemory;
use rsml_ground::GroundGuard;
use std::alloc::Global;
use table_notes::{member_at, member_count};
use written_members::guard_of;

/// A member, and the row that is added to its table.
#[derive(Clone, Copy)]
pub struct Change<'t> {
    pub member: Member,
    pub added: Added<'t>,
}

/// Where one of members or more is enabled, and where two or more are.
#[derive(Clone, Copy)]
struct Counted {
    some: Ref,
    two: Ref,
}

/// The row that is added to the table of a member.
fn added_to<'t>(change: Change<'t>, member: Member) -> Option<Added<'t>> {
    if change.member == member {
        Some(change.added)
    } else {
        None
    }
}

/// Where a member is enabled after a change, if the source is active.
#[tactic(auto, using(crate::proofs::Keeping::no_calls, crate::proofs::Keeping::two_calls))]
fn enabled(
    alloc: Global,
    encoder: &mut Encoder<'_, '_>,
    member: Member,
    change: Change<'_>,
) -> Result<Ref, NoMemory>
    ensures keeps { Keeps encoder.old encoder.new }
    ensures is_ref { IfOk result (IsRef encoder.new.diagram) }
{
    let machine = encoder.machine();
    match guard_of(machine, member) {
        Some(GroundGuard::Always) => Ok(encoder.constant(true)),
        Some(GroundGuard::Table(table)) => columns(
            alloc,
            encoder,
            table.rows.as_slice(),
            added_to(change, member),
        ),
        None => Ok(encoder.constant(false)),
    }
}

/// One member more.
#[tactic(auto, using(crate::proofs::Keeping::no_calls, crate::proofs::Keeping::two_calls))]
fn counted_more(
    encoder: &mut Encoder<'_, '_>,
    before: Counted,
    enabled: Ref,
) -> Result<Counted, NoMemory>
    requires some { IsRef encoder.old.diagram before.some }
    requires two { IsRef encoder.old.diagram before.two }
    requires enabled { IsRef encoder.old.diagram enabled }
    ensures keeps { Keeps encoder.old encoder.new }
    ensures some { IfOk result (λ x. IsRef encoder.new.diagram x.some) }
    ensures two { IfOk result (λ x. IsRef encoder.new.diagram x.two) }
{
    let two = encoder.ite(enabled, before.some, before.two)?;
    let some = encoder.or(before.some, enabled)?;
    Ok(Counted { some, two })
}

/// How many members of a group are enabled after a change.
#[tactic(auto, using(crate::proofs::Keeping::no_calls, crate::proofs::Keeping::two_calls))]
fn count_enabled(
    alloc: Global,
    encoder: &mut Encoder<'_, '_>,
    group: u32,
    change: Change<'_>,
) -> Result<Counted, NoMemory>
    ensures keeps { Keeps encoder.old encoder.new }
    ensures some { IfOk result (λ x. IsRef encoder.new.diagram x.some) }
    ensures two { IfOk result (λ x. IsRef encoder.new.diagram x.two) }
{
    let machine = encoder.machine();
    let none = encoder.constant(false);
    let mut counted = Counted {
        some: none,
        two: none,
    };
    for place in 0..member_count(machine, group) {
        if let Some(member) = member_at(machine, group, place) {
            let enabled = enabled(alloc, encoder, member, change)?;
            counted = counted_more(encoder, counted, enabled)?;
        }
    }
    Ok(counted)
}

/// Where not exactly one member of a group is enabled after a change.
#[tactic(auto, using(crate::proofs::Keeping::no_calls, crate::proofs::Keeping::two_calls))]
fn not_one(
    alloc: Global,
    encoder: &mut Encoder<'_, '_>,
    group: u32,
    change: Change<'_>,
) -> Result<Ref, NoMemory>
    ensures keeps { Keeps encoder.old encoder.new }
    ensures is_ref { IfOk result (IsRef encoder.new.diagram) }
{
    let counted = count_enabled(alloc, encoder, group, change)?;
    let none = encoder.not(counted.some)?;
    encoder.or(counted.two, none)
}

/// Where the condition of a group holds: nowhere, where there is no such group.
#[tactic(auto, using(crate::proofs::Keeping::no_calls, crate::proofs::Keeping::two_calls))]
fn condition(encoder: &mut Encoder<'_, '_>, group: u32) -> Result<Ref, NoMemory>
    ensures keeps { Keeps encoder.old encoder.new }
    ensures is_ref { IfOk result (IsRef encoder.new.diagram) }
{
    if group >= encoder.machine().groups().count() {
        return Ok(encoder.constant(false));
    }
    encoder.condition(group)
}

/// Whether something is true in no world in which the condition of a group holds.
#[tactic(auto, using(crate::proofs::Keeping::no_calls, crate::proofs::Keeping::two_calls))]
fn is_nowhere(
    alloc: Global,
    encoder: &mut Encoder<'_, '_>,
    group: u32,
    told: Ref,
) -> Result<bool, NoMemory>
    requires { IsRef encoder.old.diagram told }
    ensures keeps { Keeps encoder.old encoder.new }
{
    let condition = condition(encoder, group)?;
    let both = encoder.and(condition, told)?;
    let decided = encoder.decided(alloc, both)?;
    Ok(encoder.is_false(decided))
}

/// Whether a group would be sound after a change.
#[tactic(auto, using(crate::proofs::Keeping::no_calls, crate::proofs::Keeping::two_calls))]
pub fn is_sound_with(
    alloc: Global,
    encoder: &mut Encoder<'_, '_>,
    group: u32,
    change: Change<'_>,
) -> Result<bool, NoMemory>
    ensures keeps { Keeps encoder.old encoder.new }
{
    let told = not_one(alloc, encoder, group, change)?;
    is_nowhere(alloc, encoder, group, told)
}

/// Whether a column with the cell of an added row is true nowhere in a group.
#[tactic(auto, using(crate::proofs::Keeping::no_calls, crate::proofs::Keeping::two_calls))]
fn is_lost(
    alloc: Global,
    encoder: &mut Encoder<'_, '_>,
    group: u32,
    added: Added<'_>,
    place: usize,
) -> Result<bool, NoMemory>
    ensures keeps { Keeps encoder.old encoder.new }
{
    let told = whole_column(alloc, encoder, added.table.rows, Some(added), place)?;
    is_nowhere(alloc, encoder, group, told)
}

/// Whether each column that a row reaches, added to its table, would be true in some world in which the condition of a group holds.
#[tactic(auto, using(crate::proofs::Keeping::no_calls, crate::proofs::Keeping::two_calls))]
pub fn columns_stay(
    alloc: Global,
    encoder: &mut Encoder<'_, '_>,
    group: u32,
    added: Added<'_>,
) -> Result<bool, NoMemory>
    ensures keeps { Keeps encoder.old encoder.new }
{
    for place in 0..added.table.width() {
        if added.table.holds(place) && is_lost(alloc, encoder, group, added, place)? {
            return Ok(false);
        }
    }
    Ok(true)
}
