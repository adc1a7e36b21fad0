//! The worlds in which a group is not sound, and the others in which its condition holds.
ghost use Rattle.std.specs.Prelude.{◌<◌, IfOk, length};
ghost use Rattle.bdd_core.specs.Diagram.{IsRef};
ghost use Rattle.rsml_meaning.specs.Groups.{groups};
ghost use Rattle.guard_encode.specs.Encoding.{Keeps};

use bdd_core::Ref;
use group_verdicts::{Counts, none_enabled, two_enabled};
use guard_encode::Encoder;
use rsml_base::NoMemory;
use std::alloc::Global;

/// In which way a group is not sound: that no member is enabled, or two or more.
#[derive(Clone, Copy, PartialEq, Eq)]
pub enum Failing {
    Missing,
    Double,
}

/// The worlds in which a group fails so. None, where there is no such group.
#[tactic(auto, using(crate::proofs::Keeping::no_calls, crate::proofs::Keeping::two_calls))]
pub fn failing_worlds(
    alloc: Global,
    encoder: &mut Encoder<'_, '_>,
    group: u32,
    failing: Failing,
) -> Result<Ref, NoMemory>
    ensures keeps { Keeps encoder.old encoder.new }
    ensures is_ref { IfOk result (IsRef encoder.new.diagram) }
{
    let machine = encoder.machine();
    if group >= machine.groups().count() {
        return Ok(encoder.constant(false));
    }
    let mut counts = Counts::new(alloc, machine)?;
    match failing {
        Failing::Missing => none_enabled(alloc, encoder, &mut counts, group),
        Failing::Double => two_enabled(alloc, encoder, &mut counts, group),
    }
}

/// The worlds in which the condition of a group holds. None, where there is no such group.
#[tactic(auto, using(crate::proofs::Keeping::no_calls, crate::proofs::Keeping::two_calls))]
fn condition(encoder: &mut Encoder<'_, '_>, group: u32) -> Result<Ref, NoMemory>
    ensures keeps { Keeps encoder.old encoder.new }
    ensures is_ref { IfOk result (IsRef encoder.new.diagram) }
{
    if group >= encoder.machine().groups().count() {
        return Ok(encoder.constant(false));
    }
    encoder.condition(group)
}

/// The worlds in which the condition of a group holds, but for those of `failing`.
#[tactic(auto, using(crate::proofs::Keeping::no_calls, crate::proofs::Keeping::two_calls))]
pub fn other_worlds(
    encoder: &mut Encoder<'_, '_>,
    group: u32,
    failing: Ref,
) -> Result<Ref, NoMemory>
    requires { IsRef encoder.old.diagram failing }
    ensures keeps { Keeps encoder.old encoder.new }
    ensures is_ref { IfOk result (IsRef encoder.new.diagram) }
{
    let others = encoder.not(failing)?;
    let condition = condition(encoder, group)?;
    encoder.and(condition, others)
}
