ghost use Rattle.std.specs.Prelude.{◌≡◌, ◌<◌, IfOk, Some, length, map, slice_get};
ghost use Rattle.std.specs.List.{AllZip};
ghost use Rattle.rsml_meaning.specs.Findings.{IsVerdict};
ghost use Rattle.rsml_meaning.specs.Groups.{Group, groups};
ghost use Rattle.guard_encode.specs.Encoding.{Keeps};
ghost use Rattle.group_verdicts.specs.Counts.{AreCounts};
ghost use Rattle.finding_texts.specs.Verdicts.{verdict_of};

use crate::counts::Counts;
use crate::failing::{none_enabled, two_enabled};
use crate::least::least_world;
use elaborate::Machine;
use finding_texts::Verdict;
use guard_encode::Encoder;
use level_order::plan_of;
use rsml_base::NoMemory;
use std::alloc::Global;

/// What is found of each group of a machine, in order. The only error is out of memory.
pub fn verdicts(alloc: Global, machine: &Machine<'_>) -> Result<Vec<Verdict>, NoMemory>
    ensures { IfOk result (λ v. AllZip (IsVerdict machine.now.base.spec) (groups machine.now.base.spec) (map verdict_of v.items)) }
{
    let mut encoder = encoder_of(alloc, machine)?;
    verdicts_by(alloc, &mut encoder)
}

/// The diagrams of a machine.
fn encoder_of<'m, 'a>(alloc: Global, machine: &'m Machine<'a>) -> Result<Encoder<'m, 'a>, NoMemory>
    ensures { IfOk result (λ e. e.machine ≡ machine.now) }
{
    let plan = plan_of(alloc, machine)?;
    Encoder::with(alloc, machine, plan, 0)
}

/// The same, by the diagrams of an encoder of the machine.
pub fn verdicts_by(alloc: Global, encoder: &mut Encoder<'_, '_>) -> Result<Vec<Verdict>, NoMemory>
    ensures keeps { Keeps encoder.old encoder.new }
    ensures found { IfOk result (λ v. AllZip (IsVerdict encoder.old.machine.base.spec) (groups encoder.old.machine.base.spec) (map verdict_of v.items)) }
{
    let machine = encoder.machine();
    let mut counts = Counts::new(alloc, machine)?;
    let mut verdicts = Vec::new(alloc);
    for group in 0..machine.groups().count() {
        verdicts.push(verdict(alloc, encoder, &mut counts, group)?)?;
    }
    Ok(verdicts)
}

/// The first group of a machine for whose verdict memory is refused. None where it is refused for none, or before the first.
pub fn refused_group(alloc: Global, machine: &Machine<'_>) -> Option<u32> {
    let mut encoder = encoder_of(alloc, machine).ok()?;
    first_refused(alloc, &mut encoder)
}

/// The same, by the diagrams of an encoder of the machine.
fn first_refused(alloc: Global, encoder: &mut Encoder<'_, '_>) -> Option<u32> {
    let machine = encoder.machine();
    let mut counts = Counts::new(alloc, machine).ok()?;
    let groups = machine.groups().count();
    for group in 0..groups {
        if verdict(alloc, encoder, &mut counts, group).is_err() {
            return Some(group);
        }
    }
    None
}

/// What is found of a group.
fn verdict(
    alloc: Global,
    encoder: &mut Encoder<'_, '_>,
    counts: &mut Counts,
    group: u32,
) -> Result<Verdict, NoMemory>
    requires group { group < length (groups encoder.old.machine.base.spec) }
    requires counts { AreCounts encoder.old counts.old }
    ensures keeps { Keeps encoder.old encoder.new }
    ensures counts { AreCounts encoder.new counts.new }
    ensures found { IfOk result (λ v. (g : Group) → slice_get (groups encoder.new.machine.base.spec) group ≡ Some g
        → IsVerdict encoder.new.machine.base.spec g (verdict_of v)) }
{
    let none = none_enabled(alloc, encoder, counts, group)?;
    if let Some(world) = least_world(alloc, encoder, none)? {
        return Ok(Verdict::Missing(world));
    }
    let two = two_enabled(alloc, encoder, counts, group)?;
    if let Some(world) = least_world(alloc, encoder, two)? {
        return Ok(Verdict::Double(world));
    }
    Ok(Verdict::Sound)
}
