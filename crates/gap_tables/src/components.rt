//! The children of a column, one component after another.
ghost use Rattle.std.specs.Prelude.{◌≡◌, ◌+◌, ◌<◌, ◌&&◌, Bool, IfOk, length};
ghost use Rattle.rsml_syntax.specs.declared.world.World.{World as SpecWorld};
ghost use Rattle.rsml_meaning.specs.Instances.{components};
ghost use Rattle.rsml_meaning.specs.Worlds.{IsWorld};
ghost use Rattle.bdd_core.specs.Diagram.{IsRef};
ghost use Rattle.guard_encode.specs.Encoding.{Finds, Keeps, Tells};
ghost use Rattle.world_columns.specs.Columns.{is_allowed};
ghost use Rattle.world_columns.specs.Gaps.{IsWidestChild};
ghost use Rattle.gap_tables.specs.Widening.{AreLaterChildren, ChildGoesOn, ChildrenFound, IsNowhere, child_at};

use crate::asking::coming;
use crate::later::later_at;
use crate::parts::child_in;
use bdd_core::Ref;
use group_verdicts::{cell_number, is_read};
use guard_encode::{Encoder, ReadParts};
use rsml_base::{List, NoMemory};
use rsml_syntax::World;
use std::alloc::Global;

/// The child of a component with which no world of `bad` comes into a column: any, where there is no such world, else its own.
fn child_of(
    alloc: Global,
    encoder: &mut Encoder<'_, '_>,
    component: u32,
    own: u8,
    bad: Ref,
) -> Result<Option<u8>, NoMemory>
    requires bad_ref { IsRef encoder.old.diagram bad }
    ensures keeps { Keeps encoder.old encoder.new }
    ensures answer { IfOk result (λ child. (truth : SpecWorld → Bool) → Finds encoder.old truth bad
        → IsWidestChild (λ x. IsNowhere encoder.old.machine.base.spec (λ v. truth v && is_allowed x (child_at component v))) own child) }
{
    let decided = encoder.decided(alloc, bad)?;
    if encoder.is_false(decided) {
        return Ok(None);
    }
    Ok(Some(own))
}

/// Those of the worlds of `inside` in which a component has a child, or any.
fn having(
    encoder: &mut Encoder<'_, '_>,
    component: u32,
    child: Option<u8>,
    inside: Ref,
) -> Result<Ref, NoMemory>
    requires component { component < length (components encoder.old.machine.base.spec) }
    requires inside_ref { IsRef encoder.old.diagram inside }
    ensures keeps { Keeps encoder.old encoder.new }
    ensures is_ref { IfOk result (IsRef encoder.new.diagram) }
    ensures answer { IfOk result (λ r. (truth : SpecWorld → Bool) → Tells encoder.old truth inside
        → Tells encoder.new (λ v. truth v && is_allowed child (child_at component v)) r) }
{
    match child {
        None => Ok(inside),
        Some(place) => {
            let chosen = encoder.choice(component, place)?;
            encoder.and(inside, chosen)
        }
    }
}

/// The next child of a column, and where the worlds have it and those before it. `after` finds the worlds whose later parts are as in
/// this one, `others` tells those outside the set, and `inside` those that have the children so far.
pub(crate) fn next_child(
    alloc: Global,
    encoder: &mut Encoder<'_, '_>,
    read: &ReadParts,
    world: &World,
    component: u32,
    after: Ref,
    others: Ref,
    inside: Ref,
) -> Result<(Option<u8>, Ref), NoMemory>
    requires component { component < length (components encoder.old.machine.base.spec) }
    requires world { IsWorld encoder.old.machine.base.spec world.now }
    requires after_ref { IsRef encoder.old.diagram after }
    requires others_ref { IsRef encoder.old.diagram others }
    requires inside_ref { IsRef encoder.old.diagram inside }
    ensures keeps { Keeps encoder.old encoder.new }
    ensures is_ref { IfOk result (λ found. IsRef encoder.new.diagram found.1) }
    ensures answer { IfOk result (λ found. ChildGoesOn encoder.old encoder.new read.now world.now component after others inside found.0 found.1) }
{
    if !is_read(&read.choices, component as usize) {
        return Ok((None, inside));
    }
    let own = child_in(world, component);
    let bad = coming(encoder, after, others, inside)?;
    let child = child_of(alloc, encoder, component, own, bad)?;
    let narrowed = having(encoder, component, child, inside)?;
    Ok((child, narrowed))
}

/// The children of the column of a set from a world, and where the worlds have them. `others` tells the worlds outside the set.
pub(crate) fn children(
    alloc: Global,
    encoder: &mut Encoder<'_, '_>,
    read: &ReadParts,
    world: &World,
    later: &[Ref],
    others: Ref,
) -> Result<(List<Option<u8>>, Ref), NoMemory>
    requires world { IsWorld encoder.old.machine.base.spec world.now }
    requires many { length later.now ≡ length world.now.choices + 1 }
    requires later { AreLaterChildren encoder.old read.now world.now later.now }
    requires others_ref { IsRef encoder.old.diagram others }
    ensures keeps { Keeps encoder.old encoder.new }
    ensures is_ref { IfOk result (λ found. IsRef encoder.new.diagram found.1) }
    ensures many { IfOk result (λ found. length found.0 ≡ length world.now.choices) }
    ensures answer { IfOk result (λ found. ChildrenFound encoder.old encoder.new read.now world.now others found.0 found.1) }
{
    let mut children = List::new(alloc);
    let mut inside = encoder.constant(true);
    let components = world.choices.len();
    for place in 0..components {
        let after = later_at(later, components - 1 - place);
        let component = cell_number(place)?;
        let (child, narrowed) = next_child(
            alloc, encoder, read, world, component, after, others, inside,
        )?;
        children.push(child)?;
        inside = narrowed;
    }
    Ok((children, inside))
}
