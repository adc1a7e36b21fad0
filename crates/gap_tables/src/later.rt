//! The worlds whose later parts are as in one world, for each part after which they are later.
ghost use Rattle.std.specs.Prelude.{◌≡◌, ◌+◌, ◌<◌, IfOk, Some, length, slice_get};
ghost use Rattle.rsml_meaning.specs.Worlds.{IsWorld};
ghost use Rattle.guard_encode.specs.Encoding.{Keeps};
ghost use Rattle.gap_tables.specs.Widening.{AreLaterCells, AreLaterChildren, FindsLater};

use crate::parts::{child_in, number_in};
use bdd_core::Ref;
use group_verdicts::{cell_number, is_read};
use guard_encode::{Encoder, ReadParts};
use rsml_base::NoMemory;
use rsml_syntax::World;
use std::alloc::Global;

/// Those of the worlds of `after` in which a cell, if it is read, has the number that it has in this one.
fn with_number(
    encoder: &mut Encoder<'_, '_>,
    read: &ReadParts,
    world: &World,
    place: usize,
    after: Ref,
) -> Result<Ref, NoMemory>
    requires world { IsWorld encoder.old.machine.base.spec world.now }
    requires place { place < length world.now.cells }
    requires after { FindsLater encoder.old read.now world.now (length world.now.choices) (place + 1) after }
    ensures keeps { Keeps encoder.old encoder.new }
    ensures answer { IfOk result (FindsLater encoder.new read.now world.now (length world.now.choices) place) }
{
    if !is_read(&read.cells, place) {
        return Ok(after);
    }
    let cell = cell_number(place)?;
    encoder.fixed(after, cell, number_in(world, cell))
}

/// Those of the worlds of `after` in which a component, if it is read, has the child that it has in this one.
fn with_child(
    encoder: &mut Encoder<'_, '_>,
    read: &ReadParts,
    world: &World,
    place: usize,
    after: Ref,
) -> Result<Ref, NoMemory>
    requires world { IsWorld encoder.old.machine.base.spec world.now }
    requires place { place < length world.now.choices }
    requires after { FindsLater encoder.old read.now world.now (place + 1) 0 after }
    ensures keeps { Keeps encoder.old encoder.new }
    ensures answer { IfOk result (FindsLater encoder.new read.now world.now place 0) }
{
    if !is_read(&read.choices, place) {
        return Ok(after);
    }
    let component = cell_number(place)?;
    let chosen = encoder.choice(component, child_in(world, component))?;
    encoder.and(after, chosen)
}

/// For each cell, from the last on, those worlds whose cells from it on are as in this one, as far as they are read; before these all.
pub(crate) fn later_cells(
    alloc: Global,
    encoder: &mut Encoder<'_, '_>,
    read: &ReadParts,
    world: &World,
) -> Result<Vec<Ref>, NoMemory>
    requires { IsWorld encoder.old.machine.base.spec world.now }
    ensures keeps { Keeps encoder.old encoder.new }
    ensures many { IfOk result (λ later. length later.items ≡ length world.now.cells + 1) }
    ensures answer { IfOk result (λ later. AreLaterCells encoder.new read.now world.now later.items) }
{
    let mut later = Vec::new(alloc);
    later.push(encoder.constant(true))?;
    let cells = world.cells.len();
    for done in 0..cells {
        let last = later_at(later.as_slice(), done);
        let after = with_number(encoder, read, world, cells - 1 - done, last)?;
        later.push(after)?;
    }
    Ok(later)
}

/// The same for each component; before these those of `first`.
pub(crate) fn later_children(
    alloc: Global,
    encoder: &mut Encoder<'_, '_>,
    read: &ReadParts,
    world: &World,
    first: Ref,
) -> Result<Vec<Ref>, NoMemory>
    requires world { IsWorld encoder.old.machine.base.spec world.now }
    requires first { FindsLater encoder.old read.now world.now (length world.now.choices) 0 first }
    ensures keeps { Keeps encoder.old encoder.new }
    ensures many { IfOk result (λ later. length later.items ≡ length world.now.choices + 1) }
    ensures answer { IfOk result (λ later. AreLaterChildren encoder.new read.now world.now later.items) }
{
    let mut later = Vec::new(alloc);
    later.push(first)?;
    let components = world.choices.len();
    for done in 0..components {
        let last = later_at(later.as_slice(), done);
        let after = with_child(encoder, read, world, components - 1 - done, last)?;
        later.push(after)?;
    }
    Ok(later)
}

/// The function at a place.
pub(crate) fn later_at(later: &[Ref], place: usize) -> Ref
    requires { place < length later.now }
    ensures { slice_get later.now place ≡ Some result }
{
    later[place]
}
