ghost use Rattle.std.specs.Prelude.{◌≡◌, ◌<◌, ◌≤◌, IfOk, length};
ghost use Rattle.std.specs.List.{AllZip};
ghost use Rattle.rsml_meaning.specs.Groups.{groups};
ghost use Rattle.guard_encode.specs.Encoding.{HasNoBounds, Keeps};
ghost use Rattle.group_verdicts.specs.Counts.{AreCounts};
ghost use Rattle.world_columns.specs.Failing.{enables_none, enables_two};
ghost use Rattle.world_columns.specs.GapsOf.{AreGroupGaps};
ghost use Rattle.gap_tables.specs.Widening.{ColumnsAt, ToldAt};

use crate::gaps::columns;
use elaborate::Machine;
use group_verdicts::{Counts, none_enabled, two_enabled};
use guard_encode::Encoder;
use instance_texts::Texts;
use keyed_levels::Plan;
use level_order::plan_of;
use rsml_base::NoMemory;
use std::alloc::Global;
use world_columns::{Gaps, GroupGaps};

/// For so many columns there are levels for all ends of spans. Many bounds of one cell make larger functions than its own levels.
const COLUMNS_WITH_BOUNDS: u32 = 9;

/// What is told of each group of a machine, in order, with at most so many columns. `texts` are those of the machine's specification.
/// The only error is out of memory.
pub fn group_gaps(
    alloc: Global,
    machine: &Machine<'_>,
    texts: &Texts<'_>,
    most: u32,
) -> Result<Vec<GroupGaps>, NoMemory>
    requires texts { texts.now ≡ machine.now.base.spec }
    requires some { 1 ≤ most }
    ensures { IfOk result (λ v. AllZip (AreGroupGaps machine.now.base.spec most) (groups machine.now.base.spec) v.items) }
{
    let plan = plan_of(alloc, machine)?;
    let spare = spare_levels(machine, &plan, most);
    let mut encoder = Encoder::with(alloc, machine, plan, spare)?;
    gaps_by(alloc, &mut encoder, texts, most)
}

/// A level for each end of each span of the first columns, where comparisons have levels; not more than 65,536.
fn spare_levels(machine: &Machine<'_>, plan: &Plan, most: u32) -> u32 {
    if !plan.has_comparisons() {
        return 0;
    }
    let ends = machine.worlds().cells().saturating_mul(2);
    let columns = most.min(COLUMNS_WITH_BOUNDS) as usize;
    ends.saturating_mul(columns).min(65_536) as u32
}

/// The same, by the diagrams of an encoder of the machine.
fn gaps_by(
    alloc: Global,
    encoder: &mut Encoder<'_, '_>,
    texts: &Texts<'_>,
    most: u32,
) -> Result<Vec<GroupGaps>, NoMemory>
    requires texts { texts.now ≡ encoder.old.machine.base.spec }
    requires bounds { HasNoBounds encoder.old }
    requires some { 1 ≤ most }
    ensures { IfOk result (λ v. AllZip (AreGroupGaps encoder.old.machine.base.spec most) (groups encoder.old.machine.base.spec) v.items) }
{
    let machine = encoder.machine();
    let mut counts = Counts::new(alloc, machine)?;
    let mut gaps = Vec::new(alloc);
    for group in 0..machine.groups().count() {
        gaps.push(gaps_of(alloc, encoder, &mut counts, texts, group, most)?)?;
    }
    Ok(gaps)
}

/// What is told of a group.
fn gaps_of(
    alloc: Global,
    encoder: &mut Encoder<'_, '_>,
    counts: &mut Counts,
    texts: &Texts<'_>,
    group: u32,
    most: u32,
) -> Result<GroupGaps, NoMemory>
    requires texts { texts.now ≡ encoder.old.machine.base.spec }
    requires bounds { HasNoBounds encoder.old }
    requires group { group < length (groups encoder.old.machine.base.spec) }
    requires counts { AreCounts encoder.old counts.old }
    requires some { 1 ≤ most }
    ensures keeps { Keeps encoder.old encoder.new }
    ensures counts { AreCounts encoder.new counts.new }
    ensures found { IfOk result (λ x. ToldAt most x group encoder.new.machine.base.spec) }
{
    let missing = columns_of_none(alloc, encoder, counts, texts, group, most)?;
    if !missing.columns.is_empty() {
        return Ok(GroupGaps::Missing(missing));
    }
    let double = columns_of_two(alloc, encoder, counts, texts, group, most)?;
    if !double.columns.is_empty() {
        return Ok(GroupGaps::Double(double));
    }
    Ok(GroupGaps::Sound)
}

/// The columns of the worlds in which a group enables no member.
fn columns_of_none(
    alloc: Global,
    encoder: &mut Encoder<'_, '_>,
    counts: &mut Counts,
    texts: &Texts<'_>,
    group: u32,
    most: u32,
) -> Result<Gaps, NoMemory>
    requires texts { texts.now ≡ encoder.old.machine.base.spec }
    requires bounds { HasNoBounds encoder.old }
    requires group { group < length (groups encoder.old.machine.base.spec) }
    requires counts { AreCounts encoder.old counts.old }
    ensures keeps { Keeps encoder.old encoder.new }
    ensures counts { AreCounts encoder.new counts.new }
    ensures found { IfOk result (ColumnsAt most group enables_none encoder.new.machine.base.spec) }
{
    let none = none_enabled(alloc, encoder, counts, group)?;
    columns(alloc, encoder, texts, none, most)
}

/// The columns of the worlds in which a group enables two members or more.
fn columns_of_two(
    alloc: Global,
    encoder: &mut Encoder<'_, '_>,
    counts: &mut Counts,
    texts: &Texts<'_>,
    group: u32,
    most: u32,
) -> Result<Gaps, NoMemory>
    requires texts { texts.now ≡ encoder.old.machine.base.spec }
    requires bounds { HasNoBounds encoder.old }
    requires group { group < length (groups encoder.old.machine.base.spec) }
    requires counts { AreCounts encoder.old counts.old }
    ensures keeps { Keeps encoder.old encoder.new }
    ensures counts { AreCounts encoder.new counts.new }
    ensures found { IfOk result (ColumnsAt most group enables_two encoder.new.machine.base.spec) }
{
    let two = two_enabled(alloc, encoder, counts, group)?;
    columns(alloc, encoder, texts, two, most)
}
