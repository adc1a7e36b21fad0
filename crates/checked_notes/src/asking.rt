//! What an encoder says of columns.
ghost use Rattle.std.specs.Prelude.{IfOk};
ghost use Rattle.bdd_core.specs.Diagram.{IsRef};

use bdd_core::Ref;
use guard_encode::Encoder;
use rsml_base::NoMemory;
use std::alloc::Global;
use table_notes::{Asked, column, while_active};

/// Whether `f` is true of no world in which a state is active.
fn is_never(
    alloc: Global,
    encoder: &mut Encoder<'_, '_>,
    f: Ref,
    state: Option<u32>,
) -> Result<bool, NoMemory>
    requires { IsRef encoder.old.diagram f }
{
    let there = while_active(encoder, f, state)?;
    let decided = encoder.decided(alloc, there)?;
    Ok(encoder.is_false(decided))
}

/// Whether a column is true of no world.
pub fn never_holds(
    alloc: Global,
    encoder: &mut Encoder<'_, '_>,
    asked: &Asked<'_>,
    place: usize,
) -> Result<bool, NoMemory> {
    let column = column(alloc, encoder, asked, place)?;
    is_never(alloc, encoder, column, asked.source)
}

/// Where a column is true and another is not.
fn without(
    alloc: Global,
    encoder: &mut Encoder<'_, '_>,
    asked: &Asked<'_>,
    one: usize,
    other: usize,
) -> Result<Ref, NoMemory>
    ensures is_ref { IfOk result (IsRef encoder.new.diagram) }
{
    let other = column(alloc, encoder, asked, other)?;
    let rest = encoder.not(other)?;
    let one = column(alloc, encoder, asked, one)?;
    encoder.and(one, rest)
}

/// Whether a column is true only where another is.
pub fn is_within(
    alloc: Global,
    encoder: &mut Encoder<'_, '_>,
    asked: &Asked<'_>,
    one: usize,
    other: usize,
) -> Result<bool, NoMemory> {
    let left = without(alloc, encoder, asked, one, other)?;
    is_never(alloc, encoder, left, asked.source)
}
