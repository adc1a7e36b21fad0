//! Those of the worlds of a function that pass a test.
ghost use Rattle.std.specs.Prelude.{◌<◌, ◌==◌, Bool, IfOk, IfSome, IsTrue, length, slice_index_or};
ghost use Rattle.rsml_syntax.specs.declared.world.World.{World};
ghost use Rattle.rsml_meaning.specs.Instances.{components};
ghost use Rattle.bdd_core.specs.Diagram.{IsRef};
ghost use Rattle.guard_encode.specs.Encoding.{Keeps, Tells};
ghost use Rattle.group_verdicts.specs.Finding.{AllPass, FindsPassing};

use bdd_core::Ref;
use guard_encode::Encoder;
use rsml_base::NoMemory;
use std::alloc::Global;

/// Where `f` is true and a test passes, if there is such a world. Nothing is settled where it passes wherever `f` is true.
pub(crate) fn passing(
    alloc: Global,
    encoder: &mut Encoder<'_, '_>,
    f: Ref,
    test: Ref,
) -> Result<Option<Ref>, NoMemory>
    requires f_ref { IsRef encoder.old.diagram f }
    requires test_ref { IsRef encoder.old.diagram test }
    ensures keeps { Keeps encoder.old encoder.new }
    ensures is_ref { IfOk result (λ found. IfSome found (IsRef encoder.new.diagram)) }
    ensures answer { IfOk result (λ found. (passes : World → Bool) → Tells encoder.old passes test
        → FindsPassing encoder.old encoder.new passes f found) }
{
    let both = encoder.and(f, test)?;
    if all_pass(alloc, encoder, f, test)? {
        return Ok(Some(both));
    }
    let decided = encoder.decided(alloc, both)?;
    if encoder.is_false(decided) {
        return Ok(None);
    }
    Ok(Some(both))
}

/// Whether a test passes wherever `f` is true. What is false everywhere is decided at once.
fn all_pass(
    alloc: Global,
    encoder: &mut Encoder<'_, '_>,
    f: Ref,
    test: Ref,
) -> Result<bool, NoMemory>
    requires f_ref { IsRef encoder.old.diagram f }
    requires test_ref { IsRef encoder.old.diagram test }
    ensures keeps { Keeps encoder.old encoder.new }
    ensures answer { IfOk result (λ all. IsTrue all → (passes : World → Bool) → Tells encoder.old passes test
        → AllPass encoder.old encoder.new passes f) }
{
    let fails = encoder.not(test)?;
    let others = encoder.and(f, fails)?;
    if !encoder.is_false(others) {
        return Ok(false);
    }
    let decided = encoder.decided(alloc, others)?;
    Ok(encoder.is_false(decided))
}

/// Where `f` is true and a component has the child at a place, if there is such a world.
pub(crate) fn with_child(
    alloc: Global,
    encoder: &mut Encoder<'_, '_>,
    f: Ref,
    component: u32,
    place: u8,
) -> Result<Option<Ref>, NoMemory>
    requires f_ref { IsRef encoder.old.diagram f }
    requires component { component < length (components encoder.old.machine.base.spec) }
    ensures keeps { Keeps encoder.old encoder.new }
    ensures is_ref { IfOk result (λ found. IfSome found (IsRef encoder.new.diagram)) }
    ensures answer { IfOk result (FindsPassing encoder.old encoder.new (λ w. slice_index_or w.choices component 0 == place) f) }
{
    let test = encoder.choice(component, place)?;
    passing(alloc, encoder, f, test)
}
