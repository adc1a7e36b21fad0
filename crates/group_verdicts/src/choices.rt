//! The least children of the components.
ghost use Rattle.std.specs.Prelude.{◌<◌, IfOk, length, slice_index_or};
ghost use Rattle.std.specs.Ordering.{nat_cmp};
ghost use Rattle.std.specs.Cmp.Lexicographic.{slice_cmp};
ghost use Rattle.rsml_meaning.specs.Instances.{components};
ghost use Rattle.bdd_core.specs.Diagram.{IsRef};
ghost use Rattle.guard_encode.specs.Encoding.{Keeps};
ghost use Rattle.group_verdicts.specs.Finding.{NarrowedLow};

use crate::passing::with_child;
use crate::reading::is_read;
use bdd_core::Ref;
use guard_encode::{Encoder, ReadParts};
use rsml_base::{List, NoMemory};
use std::alloc::Global;

/// The least children with which `f` is true in some world, and `f` where those components that are read have these.
pub(crate) fn least_choices(
    alloc: Global,
    encoder: &mut Encoder<'_, '_>,
    read: &ReadParts,
    f: Ref,
) -> Result<(List<u8>, Ref), NoMemory>
    requires { IsRef encoder.old.diagram f }
    ensures keeps { Keeps encoder.old encoder.new }
    ensures is_ref { IfOk result (λ found. IsRef encoder.new.diagram found.1) }
    ensures answer { IfOk result (λ found. NarrowedLow encoder.old encoder.new read.now (slice_cmp nat_cmp) (λ w. w.choices) found.0 f found.1) }
{
    let tree = encoder.machine().tree();
    let mut choices = List::new(alloc);
    let mut rest = f;
    for component in 0..tree.components() {
        let (place, next) = least_child(alloc, encoder, read, component, rest)?;
        choices.push(place)?;
        rest = next;
    }
    Ok((choices, rest))
}

/// The least child of a component with which `f` is true in some world, and `f` where the component has it. The first, where it is
/// not read. Where `f` is true in none, any child.
fn least_child(
    alloc: Global,
    encoder: &mut Encoder<'_, '_>,
    read: &ReadParts,
    component: u32,
    f: Ref,
) -> Result<(u8, Ref), NoMemory>
    requires f_ref { IsRef encoder.old.diagram f }
    requires component { component < length (components encoder.old.machine.base.spec) }
    ensures keeps { Keeps encoder.old encoder.new }
    ensures is_ref { IfOk result (λ found. IsRef encoder.new.diagram found.1) }
    ensures answer { IfOk result (λ found. NarrowedLow encoder.old encoder.new read.now nat_cmp (λ w. slice_index_or w.choices component 0) found.0 f found.1) }
{
    if !is_read(&read.choices, component as usize) {
        return Ok((0, f));
    }
    let children = encoder.machine().tree().children(component);
    for place in 0..children {
        if let Some(rest) = with_child(alloc, encoder, f, component, place)? {
            return Ok((place, rest));
        }
    }
    Ok((0, f))
}
