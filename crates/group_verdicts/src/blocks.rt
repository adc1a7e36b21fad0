//! Blocks of cells that have their least numbers together.
ghost use Rattle.std.specs.Prelude.{◌≡◌, ◌+◌, ◌-◌, ◌++◌, ◌<◌, ◌≤◌, ℕ, IfOk, IfSome, OnOk, drop, length, take};
ghost use Rattle.std.specs.Ordering.{int_cmp};
ghost use Rattle.std.specs.Cmp.Lexicographic.{slice_cmp};
ghost use Rattle.rsml_meaning.specs.Cells.{cells as all_cells};
ghost use Rattle.bdd_core.specs.Diagram.{IsRef};
ghost use Rattle.guard_encode.specs.Encoding.{Keeps};
ghost use Rattle.group_verdicts.specs.Narrowing.{lows};
ghost use Rattle.group_verdicts.specs.Finding.{NarrowedLow, NarrowedOn, TellsLeast};

use crate::passing::passing;
use crate::reading::{cell_number, is_read};
use bdd_core::Ref;
use guard_encode::{Encoder, ReadParts};
use rsml_base::{List, NoMemory};
use std::alloc::Global;
use worlds::Worlds;

/// The end of the block from a place on that has so many cells that are read, or of all that are left.
pub(crate) fn block_end(read: &ReadParts, from: usize, many: usize, cells: usize) -> usize
    requires { from ≤ cells }
    ensures from { from ≤ result }
    ensures more { 0 < many → from < cells → from < result }
    ensures within { result ≤ cells }
{
    let mut end = from;
    let mut left = many;
    while end < cells && left > 0 {
        if is_read(&read.cells, end) {
            left -= 1;
        }
        end += 1;
    }
    end
}

/// How many cells of a block are read.
pub(crate) fn count_read(read: &ReadParts, from: usize, to: usize) -> usize {
    let mut count = 0;
    for place in from..to {
        if is_read(&read.cells, place) {
            count += 1;
        }
    }
    count
}

/// The numbers up to the end of a block, and `f` where its cells have their least numbers, if there is such a world. Otherwise the
/// numbers and `f` as they are.
pub(crate) fn with_low_block(
    alloc: Global,
    encoder: &mut Encoder<'_, '_>,
    read: &ReadParts,
    numbers: &mut List<i64>,
    end: usize,
    f: Ref,
) -> Result<Ref, NoMemory>
    requires f_ref { IsRef encoder.old.diagram f }
    requires from { length numbers.old ≤ end }
    requires end { end ≤ length (all_cells encoder.old.machine.base.spec) }
    ensures keeps { Keeps encoder.old encoder.new }
    ensures is_ref { IfOk result (IsRef encoder.new.diagram) }
    ensures from { IfOk result (λ rest. length numbers.old ≤ length numbers.new) }
    ensures end { IfOk result (λ rest. length numbers.new ≤ end) }
    ensures answer { IfOk result (NarrowedOn encoder.old encoder.new read.now numbers.old numbers.new f) }
{
    let from = numbers.len();
    match low_block(alloc, encoder, read, from, end, f)? {
        Some(rest) => {
            let known = encoder.with_exact(alloc, rest, end)?;
            push_lows(encoder.machine().worlds(), numbers, end)?;
            Ok(known)
        }
        None => Ok(f),
    }
}

/// Where `f` is true and the cells of a block have their least numbers, if there is such a world.
fn low_block(
    alloc: Global,
    encoder: &mut Encoder<'_, '_>,
    read: &ReadParts,
    from: usize,
    to: usize,
    f: Ref,
) -> Result<Option<Ref>, NoMemory>
    requires f_ref { IsRef encoder.old.diagram f }
    requires from { from ≤ to }
    requires to { to ≤ length (all_cells encoder.old.machine.base.spec) }
    ensures keeps { Keeps encoder.old encoder.new }
    ensures is_ref { IfOk result (λ found. IfSome found (IsRef encoder.new.diagram)) }
    ensures answer { IfOk result (λ found. IfSome found (NarrowedLow encoder.old encoder.new read.now (slice_cmp int_cmp)
        (λ w. take (to - from) (drop from w.cells)) (lows encoder.old.machine.base.spec from to) f)) }
{
    let test = low_test(encoder, read, from, to)?;
    passing(alloc, encoder, f, test)
}

/// True in the worlds in which the cells of a block that are read have their least numbers.
fn low_test(
    encoder: &mut Encoder<'_, '_>,
    read: &ReadParts,
    from: usize,
    to: usize,
) -> Result<Ref, NoMemory>
    requires from { from ≤ to }
    requires to { to ≤ length (all_cells encoder.old.machine.base.spec) }
    ensures keeps { Keeps encoder.old encoder.new }
    ensures answer { IfOk result (TellsLeast encoder.new read.now from to) }
{
    let mut test = encoder.constant(true);
    for place in from..to {
        test = and_low(encoder, read, place, test)?;
    }
    Ok(test)
}

/// `test`, and that a cell has its least number if it is read.
fn and_low(
    encoder: &mut Encoder<'_, '_>,
    read: &ReadParts,
    place: usize,
    test: Ref,
) -> Result<Ref, NoMemory>
    requires test_ref { IsRef encoder.old.diagram test }
    requires place { place < length (all_cells encoder.old.machine.base.spec) }
    ensures keeps { Keeps encoder.old encoder.new }
    ensures is_ref { IfOk result (IsRef encoder.new.diagram) }
    ensures answer { IfOk result (λ both. (from : ℕ) → from ≤ place → TellsLeast encoder.old read.now from place test
        → TellsLeast encoder.new read.now from (place + 1) both) }
{
    if !is_read(&read.cells, place) {
        return Ok(test);
    }
    let cell = cell_number(place)?;
    let low = encoder.machine().worlds().low(cell);
    let own = encoder.at_most(cell, low)?;
    encoder.and(test, own)
}

/// Puts the least numbers of all cells up to a place to the others.
fn push_lows(worlds: &Worlds<'_>, numbers: &mut List<i64>, end: usize) -> Result<(), NoMemory>
    requires from { length numbers.old ≤ end }
    requires end { end ≤ length (all_cells worlds.now) }
    ensures { OnOk result (numbers.new ≡ numbers.old ++ lows worlds.now (length numbers.old) end) }
{
    for place in numbers.len()..end {
        numbers.push(worlds.low(cell_number(place)?))?;
    }
    Ok(())
}
