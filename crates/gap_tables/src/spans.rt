//! The spans of a column, one cell after another.
ghost use Rattle.std.specs.Prelude.{◌≡◌, ◌+◌, ◌<◌, ℕ, Bool, IfOk, IsTrue, List as Items, Option, Some, length, slice_get};
ghost use Rattle.rsml_syntax.specs.declared.world.World.{World as SpecWorld};
ghost use Rattle.rsml_meaning.specs.Cells.{InputCell, cells as all_cells, is_of};
ghost use Rattle.rsml_meaning.specs.Worlds.{IsWorld};
ghost use Rattle.bdd_core.specs.Diagram.{IsRef};
ghost use Rattle.guard_encode.specs.Encoding.{Finds, Grows, Keeps};
ghost use Rattle.world_columns.specs.Columns.{span};
ghost use Rattle.world_columns.specs.Gaps.{IsWholeOrOne, IsWidestSpan};
ghost use Rattle.gap_tables.specs.Widening.{AreLaterCells, HoldsWhole, IsSpanAsked, NoneWithin, SpanGoesOn, SpansFound};

use crate::asking::coming;
use crate::cells::{highest, lowest, within};
use crate::later::later_at;
use crate::parts::number_in;
use bdd_core::Ref;
use group_verdicts::{cell_number, is_read};
use guard_encode::{Encoder, ReadParts};
use instance_texts::Texts;
use rsml_base::{List, NoMemory};
use rsml_syntax::World;
use std::alloc::Global;
use world_columns::Span;
use worlds::Worlds;

/// The spans of so many cells that meet in sums are told by the levels of the cells, where they have not all numbers.
const TOLD_BY_LEVELS: u32 = 3;

/// All numbers that a cell may hold.
fn whole(worlds: &Worlds<'_>, cell: u32) -> Span
    requires { cell < length (all_cells worlds.now) }
    ensures { HoldsWhole worlds.now cell result }
{
    Span {
        low: worlds.low(cell),
        high: worlds.high(cell),
    }
}

/// The span of an enumeration: all of its numbers, where there is no world of `bad`, else the world's alone.
fn whole_or_one(
    alloc: Global,
    encoder: &mut Encoder<'_, '_>,
    cell: u32,
    own: i64,
    bad: Ref,
) -> Result<Span, NoMemory>
    requires cell { cell < length (all_cells encoder.old.machine.base.spec) }
    requires bad_ref { IsRef encoder.old.diagram bad }
    ensures keeps { Keeps encoder.old encoder.new }
    ensures answer { IfOk result (λ x. (truth : SpecWorld → Bool) → Finds encoder.old truth bad
        → (c : InputCell) → slice_get (all_cells encoder.old.machine.base.spec) cell ≡ Some c
        → IsWholeOrOne (NoneWithin encoder.old.machine.base.spec truth cell) c.numbers own x) }
{
    let decided = encoder.decided(alloc, bad)?;
    if encoder.is_false(decided) {
        return Ok(whole(encoder.machine().worlds(), cell));
    }
    Ok(Span {
        low: own,
        high: own,
    })
}

/// The span of a range: from the world's number up as far as no world of `bad` comes in, and then down. What `bad` tells of the cell is
/// made once, and each half is asked of that.
fn range(
    alloc: Global,
    encoder: &mut Encoder<'_, '_>,
    cell: u32,
    own: i64,
    bad: Ref,
) -> Result<Span, NoMemory>
    requires cell { cell < length (all_cells encoder.old.machine.base.spec) }
    requires own { (c : InputCell) → slice_get (all_cells encoder.old.machine.base.spec) cell ≡ Some c → IsTrue (is_of c.numbers own) }
    requires bad_ref { IsRef encoder.old.diagram bad }
    ensures keeps { Keeps encoder.old encoder.new }
    ensures answer { IfOk result (λ x. (truth : SpecWorld → Bool) → Finds encoder.old truth bad
        → NoneWithin encoder.old.machine.base.spec truth cell (span own own)
        → (c : InputCell) → slice_get (all_cells encoder.old.machine.base.spec) cell ≡ Some c
        → IsWidestSpan (NoneWithin encoder.old.machine.base.spec truth cell) c.numbers own x) }
{
    let worlds = encoder.machine().worlds();
    let first = worlds.low(cell);
    let last = worlds.high(cell);
    let told = encoder.of_cell(alloc, bad, cell)?;
    let high = highest(encoder, cell, own, last, told)?;
    let low = lowest(encoder, cell, first, own, high, told)?;
    Ok(Span { low, high })
}

/// The span of a cell, with which no world of `bad` comes in.
fn span_of(
    alloc: Global,
    encoder: &mut Encoder<'_, '_>,
    texts: &Texts<'_>,
    cell: u32,
    own: i64,
    bad: Ref,
) -> Result<Span, NoMemory>
    requires texts { texts.now ≡ encoder.old.machine.base.spec }
    requires cell { cell < length (all_cells encoder.old.machine.base.spec) }
    requires own { (c : InputCell) → slice_get (all_cells encoder.old.machine.base.spec) cell ≡ Some c → IsTrue (is_of c.numbers own) }
    requires bad_ref { IsRef encoder.old.diagram bad }
    ensures keeps { Keeps encoder.old encoder.new }
    ensures answer { IfOk result (IsSpanAsked encoder.old cell own bad) }
{
    if texts.has_names(cell) {
        whole_or_one(alloc, encoder, cell, own, bad)
    } else {
        range(alloc, encoder, cell, own, bad)
    }
}

/// The next span of a column, and where the worlds have it and the parts before it. `after` finds the worlds whose later parts are as
/// in this one, `others` tells those outside the set, and `inside` those that have the parts so far. The span is told by bounds where
/// that is asked for.
#[tactic(auto, using(guard_encode::proofs::BoundLemmas::keeps_grows, guard_encode::proofs::BoundLemmas::grows_on, guard_encode::proofs::BoundLemmas::grows_itself))]
pub(crate) fn next_span(
    alloc: Global,
    encoder: &mut Encoder<'_, '_>,
    texts: &Texts<'_>,
    read: &ReadParts,
    world: &World,
    cell: u32,
    after: Ref,
    others: Ref,
    inside: Ref,
    by_bounds: bool,
) -> Result<(Span, Ref), NoMemory>
    requires texts { texts.now ≡ encoder.old.machine.base.spec }
    requires cell { cell < length (all_cells encoder.old.machine.base.spec) }
    requires world { IsWorld encoder.old.machine.base.spec world.now }
    requires after_ref { IsRef encoder.old.diagram after }
    requires others_ref { IsRef encoder.old.diagram others }
    requires inside_ref { IsRef encoder.old.diagram inside }
    ensures keeps { Grows encoder.old encoder.new }
    ensures is_ref { IfOk result (λ found. IsRef encoder.new.diagram found.1) }
    ensures answer { IfOk result (λ found. SpanGoesOn encoder.old encoder.new read.now world.now cell after others inside found.0 found.1) }
{
    if !is_read(&read.cells, cell as usize) {
        return Ok((whole(encoder.machine().worlds(), cell), inside));
    }
    let own = number_in(world, cell);
    let bad = coming(encoder, after, others, inside)?;
    let span = span_of(alloc, encoder, texts, cell, own, bad)?;
    let narrowed = within(alloc, encoder, cell, span, inside, by_bounds)?;
    Ok((span, narrowed))
}

/// The spans of the column of a set from a world, and where the worlds have them. `others` tells the worlds outside the set, and
/// `first` those that have the children of the column. Of cells that meet in sums the first few that have not all numbers are told by
/// diagrams of their levels, and the others by bounds: their levels are interleaved, so that diagrams of many would be large.
#[tactic(auto, using(guard_encode::proofs::BoundLemmas::keeps_grows, guard_encode::proofs::BoundLemmas::grows_on, guard_encode::proofs::BoundLemmas::grows_itself))]
pub(crate) fn spans(
    alloc: Global,
    encoder: &mut Encoder<'_, '_>,
    texts: &Texts<'_>,
    read: &ReadParts,
    world: &World,
    later: &[Ref],
    others: Ref,
    first: Ref,
) -> Result<(List<Span>, Ref), NoMemory>
    requires texts { texts.now ≡ encoder.old.machine.base.spec }
    requires world { IsWorld encoder.old.machine.base.spec world.now }
    requires many { length later.now ≡ length world.now.cells + 1 }
    requires later { AreLaterCells encoder.old read.now world.now later.now }
    requires others_ref { IsRef encoder.old.diagram others }
    requires first_ref { IsRef encoder.old.diagram first }
    ensures keeps { Grows encoder.old encoder.new }
    ensures is_ref { IfOk result (λ found. IsRef encoder.new.diagram found.1) }
    ensures many { IfOk result (λ found. length found.0 ≡ length world.now.cells) }
    ensures answer { IfOk result (λ found. (children : Items (Option ℕ)) → length children ≡ length world.now.choices
        → SpansFound encoder.old encoder.new read.now world.now others children first found.0 found.1) }
{
    let mut spans = List::new(alloc);
    let mut inside = first;
    let mut narrow: u32 = 0;
    let cells = world.cells.len();
    for place in 0..cells {
        let after = later_at(later, cells - 1 - place);
        let cell = cell_number(place)?;
        let (span, narrowed) = next_span(
            alloc,
            encoder,
            texts,
            read,
            world,
            cell,
            after,
            others,
            inside,
            narrow >= TOLD_BY_LEVELS,
        )?;
        spans.push(span)?;
        let is_narrow = narrowed != inside && encoder.is_named(cell);
        narrow = narrow.saturating_add(u32::from(is_narrow));
        inside = narrowed;
    }
    Ok((spans, inside))
}
