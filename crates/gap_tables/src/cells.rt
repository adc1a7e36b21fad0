//! The numbers of a column, one cell after another.
ghost use Rattle.std.specs.Prelude.{◌<◌, ◌↔◌, ◌&&◌, ◌≤ℤ◌, ◌<ℤ◌, Bool, IfOk, IsTrue, int_le, length};
ghost use Rattle.rsml_syntax.specs.declared.world.World.{World as SpecWorld};
ghost use Rattle.rsml_meaning.specs.Cells.{cells};
ghost use Rattle.bdd_core.specs.Diagram.{IsRef};
ghost use Rattle.guard_encode.specs.Encoding.{Grows, IsOfCell, Keeps, Tells};
ghost use Rattle.world_columns.specs.Columns.{in_span, span};
ghost use Rattle.gap_tables.specs.Widening.{HighestEnd, IsNowhere, LowestEnd, TellsOf, number_at};

use bdd_core::Ref;
use guard_encode::Encoder;
use rsml_base::NoMemory;
use std::alloc::Global;
use world_columns::Span;

/// True in the worlds in which a cell has at most this number, by a bound where that is asked for.
fn at_most(
    alloc: Global,
    encoder: &mut Encoder<'_, '_>,
    cell: u32,
    number: i64,
    by_bounds: bool,
) -> Result<Ref, NoMemory>
    requires { cell < length (cells encoder.old.machine.base.spec) }
    ensures keeps { Grows encoder.old encoder.new }
    ensures answer { IfOk result (Tells encoder.new (λ w. int_le (number_at cell w) number)) }
{
    if by_bounds {
        encoder.bound(alloc, cell, number)
    } else {
        encoder.at_most(cell, number)
    }
}

/// True in the worlds in which a cell has at least this number, by a bound where that is asked for.
#[tactic(auto, using(guard_encode::proofs::BoundLemmas::keeps_grows, guard_encode::proofs::BoundLemmas::grows_itself))]
fn at_least(
    alloc: Global,
    encoder: &mut Encoder<'_, '_>,
    cell: u32,
    number: i64,
    by_bounds: bool,
) -> Result<Ref, NoMemory>
    requires { cell < length (cells encoder.old.machine.base.spec) }
    ensures keeps { Grows encoder.old encoder.new }
    ensures answer { IfOk result (TellsOf encoder.new (λ w. int_le number (number_at cell w))) }
{
    if number <= encoder.machine().worlds().low(cell) {
        return Ok(encoder.constant(true));
    }
    let below = at_most(alloc, encoder, cell, number - 1, by_bounds)?;
    encoder.not(below)
}

/// Those of the worlds of `f` in which the number of a cell is in a span, by bounds where that is asked for.
#[tactic(auto, using(guard_encode::proofs::BoundLemmas::keeps_grows, guard_encode::proofs::BoundLemmas::grows_on))]
pub(crate) fn within(
    alloc: Global,
    encoder: &mut Encoder<'_, '_>,
    cell: u32,
    numbers: Span,
    f: Ref,
    by_bounds: bool,
) -> Result<Ref, NoMemory>
    requires cell { cell < length (cells encoder.old.machine.base.spec) }
    requires f_ref { IsRef encoder.old.diagram f }
    ensures keeps { Grows encoder.old encoder.new }
    ensures is_ref { IfOk result (IsRef encoder.new.diagram) }
    ensures told { IfOk result (λ r. (truth : SpecWorld → Bool) → Tells encoder.old truth f
        → TellsOf encoder.new (λ w. truth w && in_span numbers (number_at cell w)) r) }
{
    let up = at_least(alloc, encoder, cell, numbers.low, by_bounds)?;
    let higher = encoder.and(f, up)?;
    let down = at_most(alloc, encoder, cell, numbers.high, by_bounds)?;
    encoder.and(higher, down)
}

/// What is told of a cell, where its number is at least this.
fn told_from(
    encoder: &mut Encoder<'_, '_>,
    cell: u32,
    number: i64,
    told: Ref,
) -> Result<Ref, NoMemory>
    requires cell { cell < length (cells encoder.old.machine.base.spec) }
    requires told_ref { IsRef encoder.old.diagram told }
    ensures keeps { Keeps encoder.old encoder.new }
    ensures is_ref { IfOk result (IsRef encoder.new.diagram) }
    ensures answer { IfOk result (λ r. (truth : SpecWorld → Bool) → IsOfCell encoder.old cell truth told
        → IsOfCell encoder.new cell (λ w. truth w && int_le number (number_at cell w)) r) }
{
    if number <= encoder.machine().worlds().low(cell) {
        return Ok(told);
    }
    encoder.above(told, cell, number - 1)
}

/// Whether no world that `told` tells of a cell has a number of it between two.
fn lies(
    encoder: &mut Encoder<'_, '_>,
    cell: u32,
    low: i64,
    high: i64,
    told: Ref,
) -> Result<bool, NoMemory>
    requires cell { cell < length (cells encoder.old.machine.base.spec) }
    requires told_ref { IsRef encoder.old.diagram told }
    ensures keeps { Keeps encoder.old encoder.new }
    ensures answer { IfOk result (λ is. (truth : SpecWorld → Bool) → IsOfCell encoder.old cell truth told
        → IsTrue is ↔ IsNowhere encoder.old.machine.base.spec (λ w. truth w && in_span (span low high) (number_at cell w))) }
{
    let up = told_from(encoder, cell, low, told)?;
    let may = encoder.may_be_at_most(up, cell, high)?;
    Ok(!may)
}

/// The greatest number, from the world's on and up to one, up to which no world that `told` tells of a cell has a number of it.
pub(crate) fn highest(
    encoder: &mut Encoder<'_, '_>,
    cell: u32,
    own: i64,
    high: i64,
    told: Ref,
) -> Result<i64, NoMemory>
    requires cell { cell < length (cells encoder.old.machine.base.spec) }
    requires order { own ≤ℤ high }
    requires told_ref { IsRef encoder.old.diagram told }
    ensures keeps { Keeps encoder.old encoder.new }
    ensures answer { IfOk result (λ number. HighestEnd encoder.old cell told own high number number) }
{
    let mut good = own;
    let mut end = high;
    while good < end {
        let middle = upper_half(good, end);
        if lies(encoder, cell, own, middle, told)? {
            good = middle;
        } else {
            end = middle - 1;
        }
    }
    Ok(good)
}

/// The least number, from the world's on and down to one, from which up to `high` no world that `told` tells of a cell has a number
/// of it.
pub(crate) fn lowest(
    encoder: &mut Encoder<'_, '_>,
    cell: u32,
    low: i64,
    own: i64,
    high: i64,
    told: Ref,
) -> Result<i64, NoMemory>
    requires cell { cell < length (cells encoder.old.machine.base.spec) }
    requires order { low ≤ℤ own }
    requires told_ref { IsRef encoder.old.diagram told }
    ensures keeps { Keeps encoder.old encoder.new }
    ensures answer { IfOk result (λ number. LowestEnd encoder.old cell told low own high number number) }
{
    let mut good = own;
    let mut end = low;
    while end < good {
        let middle = lower_half(end, good);
        if lies(encoder, cell, middle, high, told)? {
            good = middle;
        } else {
            end = middle + 1;
        }
    }
    Ok(good)
}

/// A number halfway between two, the higher one of two that are next to each other.
fn upper_half(low: i64, high: i64) -> i64
    requires { low <ℤ high }
    ensures low { low <ℤ result }
    ensures high { result ≤ℤ high }
{
    high - (high.abs_diff(low) / 2) as i64
}

/// The same, but the lower one.
fn lower_half(low: i64, high: i64) -> i64
    requires { low <ℤ high }
    ensures low { low ≤ℤ result }
    ensures high { result <ℤ high }
{
    low + (high.abs_diff(low) / 2) as i64
}
