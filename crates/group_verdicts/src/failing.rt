ghost use Rattle.std.specs.Prelude.{◌≡◌, ◌<◌, IfOk, Some, length, slice_get};
ghost use Rattle.rsml_meaning.specs.Groups.{Group, groups};
ghost use Rattle.guard_encode.specs.Encoding.{Keeps, TellsExactly};
ghost use Rattle.group_verdicts.specs.Counts.{AreCounts};
ghost use Rattle.world_columns.specs.Failing.{enables_none, enables_two};

use crate::counted::{some_of, two_of};
use crate::counts::Counts;
use bdd_core::Ref;
use guard_encode::Encoder;
use rsml_base::NoMemory;
use std::alloc::Global;

/// Where the condition of a group holds and none of its members is enabled. It is the function that is false everywhere exactly
/// where no world is such.
pub fn none_enabled(
    alloc: Global,
    encoder: &mut Encoder<'_, '_>,
    counts: &mut Counts,
    group: u32,
) -> Result<Ref, NoMemory>
    requires group { group < length (groups encoder.old.machine.base.spec) }
    requires counts { AreCounts encoder.old counts.old }
    ensures keeps { Keeps encoder.old encoder.new }
    ensures counts { AreCounts encoder.new counts.new }
    ensures answer { IfOk result (λ r. (g : Group) → slice_get (groups encoder.new.machine.base.spec) group ≡ Some g
        → TellsExactly encoder.new (enables_none encoder.new.machine.base.spec g) r) }
{
    let condition = encoder.condition(group)?;
    let some = some_of(encoder, counts, group)?;
    let none = encoder.not(some)?;
    let failing = encoder.and(condition, none)?;
    encoder.decided(alloc, failing)
}

/// Where the condition of a group holds and two of its members or more are enabled. It is the function that is false everywhere
/// exactly where no world is such.
pub fn two_enabled(
    alloc: Global,
    encoder: &mut Encoder<'_, '_>,
    counts: &mut Counts,
    group: u32,
) -> Result<Ref, NoMemory>
    requires group { group < length (groups encoder.old.machine.base.spec) }
    requires counts { AreCounts encoder.old counts.old }
    ensures keeps { Keeps encoder.old encoder.new }
    ensures counts { AreCounts encoder.new counts.new }
    ensures answer { IfOk result (λ r. (g : Group) → slice_get (groups encoder.new.machine.base.spec) group ≡ Some g
        → TellsExactly encoder.new (enables_two encoder.new.machine.base.spec g) r) }
{
    let condition = encoder.condition(group)?;
    let two = two_of(encoder, counts, group)?;
    let failing = encoder.and(condition, two)?;
    encoder.decided(alloc, failing)
}
