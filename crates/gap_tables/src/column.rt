//! The column of a set from one of its worlds.
ghost use Rattle.std.specs.Prelude.{◌≡◌, ◌+◌, Bool, IfOk, IsTrue, length};
ghost use Rattle.rsml_syntax.specs.declared.world.World.{World as SpecWorld};
ghost use Rattle.rsml_meaning.specs.Worlds.{IsWorld};
ghost use Rattle.bdd_core.specs.Diagram.{IsRef};
ghost use Rattle.guard_encode.specs.Encoding.{Grows, Keeps, Tells};
ghost use Rattle.world_columns.specs.Columns.{lies_in};
ghost use Rattle.world_columns.specs.Gaps.{IsColumn};
ghost use Rattle.gap_tables.specs.Widening.{AreLaterCells, ChildrenFound, ColumnFound, TellsOf};

use crate::components::children;
use crate::later::{later_at, later_cells, later_children};
use crate::spans::spans;
use bdd_core::Ref;
use guard_encode::{Encoder, ReadParts};
use instance_texts::Texts;
use rsml_base::{List, NoMemory};
use rsml_syntax::World;
use std::alloc::Global;
use world_columns::Column;

/// The children of the column; `later` has the worlds whose later cells are as in the world.
fn first_parts(
    alloc: Global,
    encoder: &mut Encoder<'_, '_>,
    read: &ReadParts,
    world: &World,
    later: &[Ref],
    others: Ref,
) -> Result<(List<Option<u8>>, Ref), NoMemory>
    requires world { IsWorld encoder.old.machine.base.spec world.now }
    requires many { length later.now ≡ length world.now.cells + 1 }
    requires later { AreLaterCells encoder.old read.now world.now later.now }
    requires others_ref { IsRef encoder.old.diagram others }
    ensures keeps { Keeps encoder.old encoder.new }
    ensures is_ref { IfOk result (λ found. IsRef encoder.new.diagram found.1) }
    ensures many { IfOk result (λ found. length found.0 ≡ length world.now.choices) }
    ensures answer { IfOk result (λ found. ChildrenFound encoder.old encoder.new read.now world.now others found.0 found.1) }
{
    let first = later_at(later, world.cells.len());
    let after = later_children(alloc, encoder, read, world, first)?;
    children(alloc, encoder, read, world, after.as_slice(), others)
}

/// The column of a set that does not depend on parts that are not read, and where the worlds lie in it.
#[tactic(auto, using(guard_encode::proofs::BoundLemmas::keeps_grows, guard_encode::proofs::BoundLemmas::grows_on, guard_encode::proofs::BoundLemmas::grows_itself))]
fn column_by(
    alloc: Global,
    encoder: &mut Encoder<'_, '_>,
    texts: &Texts<'_>,
    read: &ReadParts,
    world: &World,
    others: Ref,
) -> Result<(Column, Ref), NoMemory>
    requires texts { texts.now ≡ encoder.old.machine.base.spec }
    requires world { IsWorld encoder.old.machine.base.spec world.now }
    requires others_ref { IsRef encoder.old.diagram others }
    ensures keeps { Grows encoder.old encoder.new }
    ensures is_ref { IfOk result (λ found. IsRef encoder.new.diagram found.1) }
    ensures answer { IfOk result (λ found. ColumnFound encoder.old encoder.new read.now world.now others found.0 found.1) }
{
    let later = later_cells(alloc, encoder, read, world)?;
    let (children, first) = first_parts(alloc, encoder, read, world, later.as_slice(), others)?;
    let (numbers, inside) = spans(
        alloc,
        encoder,
        texts,
        read,
        world,
        later.as_slice(),
        others,
        first,
    )?;
    let column = Column {
        children,
        spans: numbers,
    };
    Ok((column, inside))
}

/// The column from a world of the set that `set` tells, and where the worlds lie in it.
#[tactic(auto, using(guard_encode::proofs::BoundLemmas::keeps_grows, guard_encode::proofs::BoundLemmas::grows_on, guard_encode::proofs::BoundLemmas::grows_itself))]
pub(crate) fn column_of(
    alloc: Global,
    encoder: &mut Encoder<'_, '_>,
    texts: &Texts<'_>,
    world: &World,
    set: Ref,
) -> Result<(Column, Ref), NoMemory>
    requires texts { texts.now ≡ encoder.old.machine.base.spec }
    requires world { IsWorld encoder.old.machine.base.spec world.now }
    requires set_ref { IsRef encoder.old.diagram set }
    ensures keeps { Grows encoder.old encoder.new }
    ensures is_ref { IfOk result (λ found. IsRef encoder.new.diagram found.1) }
    ensures answer { IfOk result (λ found. (truth : SpecWorld → Bool) → Tells encoder.old truth set → IsTrue (truth world.now)
        → IsColumn encoder.old.machine.base.spec truth world.now found.0 × TellsOf encoder.new (lies_in found.0) found.1) }
{
    let read = encoder.parts_read(alloc, set)?;
    let others = encoder.not(set)?;
    column_by(alloc, encoder, texts, &read, world, others)
}
