//! What an encoder says of columns.
ghost use Rattle.std.specs.Prelude.{IfOk};
ghost use Rattle.bdd_core.specs.Diagram.{IsRef};
ghost use Rattle.guard_encode.specs.Encoding.{Keeps};

use crate::columns::column_guard;
use and_or_tables::GroundRow;
use bdd_core::Ref;
use group_verdicts::least_world;
use guard_encode::Encoder;
use rsml_base::NoMemory;
use rsml_syntax::World;
use std::alloc::Global;

/// By how many nodes the diagrams grow for what notes ask of them: so many are made in less than a second.
pub const NODES: usize = 400_000;

/// A guard of an instance: the rows of its table, none where it is always true, and the state that is to be active besides.
#[derive(Clone, Copy)]
pub struct Asked<'m> {
    pub rows: &'m [GroundRow],
    pub source: Option<u32>,
}

/// Where a column is true.
pub fn column(
    alloc: Global,
    encoder: &mut Encoder<'_, '_>,
    asked: &Asked<'_>,
    place: usize,
) -> Result<Ref, NoMemory>
    ensures keeps { Keeps encoder.old encoder.new }
    ensures is_ref { IfOk result (IsRef encoder.new.diagram) }
{
    let machine = encoder.machine();
    let macros = machine.macros();
    let guard = column_guard(alloc, asked.rows, place, macros.phrases())?;
    encoder.guard(&guard)
}

/// Where `f` is true and a state is active.
pub fn while_active(
    encoder: &mut Encoder<'_, '_>,
    f: Ref,
    state: Option<u32>,
) -> Result<Ref, NoMemory>
    requires { IsRef encoder.old.diagram f }
    ensures keeps { Keeps encoder.old encoder.new }
    ensures is_ref { IfOk result (IsRef encoder.new.diagram) }
{
    let state = match state {
        Some(state) => state,
        None => return Ok(f),
    };
    let machine = encoder.machine();
    let tree = machine.tree();
    if state >= tree.nodes() {
        return Ok(f);
    }
    let active = encoder.active(state);
    encoder.and(active, f)
}

/// The least world in which a column is true, of those in which the source is active. None where it is true in none of these.
pub fn world_of_column(
    alloc: Global,
    encoder: &mut Encoder<'_, '_>,
    asked: &Asked<'_>,
    place: usize,
) -> Result<Option<World>, NoMemory> {
    let column = column(alloc, encoder, asked, place)?;
    let there = while_active(encoder, column, asked.source)?;
    let decided = encoder.decided(alloc, there)?;
    least_world(alloc, encoder, decided)
}
