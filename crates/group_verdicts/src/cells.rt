//! The least numbers of the cells.
ghost use Rattle.std.specs.Prelude.{◌≡◌, ◌<◌, ◌≤◌, ◌≤ℤ◌, ◌<ℤ◌, IfOk, length, pos, slice_index_or};
ghost use Rattle.std.specs.Ordering.{int_cmp};
ghost use Rattle.std.specs.Cmp.Lexicographic.{slice_cmp};
ghost use Rattle.rsml_meaning.specs.Cells.{cells as all_cells};
ghost use Rattle.bdd_core.specs.Diagram.{IsRef};
ghost use Rattle.guard_encode.specs.Encoding.{Keeps};
ghost use Rattle.group_verdicts.specs.Finding.{Bounded, NarrowedLow, NarrowedOn, IsLeastPart};

use crate::blocks::{block_end, count_read, with_low_block};
use crate::reading::{cell_number, is_read};
use bdd_core::Ref;
use guard_encode::{Encoder, ReadParts};
use rsml_base::{List, NoMemory};
use std::alloc::Global;
use worlds::Worlds;

/// The least numbers with which `f` is true in some world.
pub(crate) fn least_cells(
    alloc: Global,
    encoder: &mut Encoder<'_, '_>,
    read: &ReadParts,
    f: Ref,
) -> Result<List<i64>, NoMemory>
    requires { IsRef encoder.old.diagram f }
    ensures keeps { Keeps encoder.old encoder.new }
    ensures answer { IfOk result (λ numbers. IsLeastPart encoder.old read.now (slice_cmp int_cmp) (λ w. w.cells) numbers f) }
{
    let cells = encoder.machine().cells();
    let mut numbers = List::new(alloc);
    let mut rest = f;
    let mut many = 1;
    while numbers.len() < cells {
        let (next, more) = more_numbers(alloc, encoder, read, &mut numbers, many, rest)?;
        rest = next;
        many = more;
    }
    Ok(numbers)
}

/// The numbers up to the end of the next block with so many cells that are read, where these have their least numbers together, or where
/// there is only one. Otherwise those up to one of them that does not. With them how many to try next.
fn more_numbers(
    alloc: Global,
    encoder: &mut Encoder<'_, '_>,
    read: &ReadParts,
    numbers: &mut List<i64>,
    many: usize,
    f: Ref,
) -> Result<(Ref, usize), NoMemory>
    requires f_ref { IsRef encoder.old.diagram f }
    requires many { 0 < many }
    requires some { length numbers.old < length (all_cells encoder.old.machine.base.spec) }
    ensures keeps { Keeps encoder.old encoder.new }
    ensures is_ref { IfOk result (λ found. IsRef encoder.new.diagram found.0) }
    ensures many { IfOk result (λ found. 0 < found.1) }
    ensures more { IfOk result (λ found. length numbers.old < length numbers.new) }
    ensures within { IfOk result (λ found. length numbers.new ≤ length (all_cells encoder.old.machine.base.spec)) }
    ensures answer { IfOk result (λ found. NarrowedOn encoder.old encoder.new read.now numbers.old numbers.new f found.0) }
{
    let from = numbers.len();
    let end = block_end(read, from, many, encoder.machine().cells());
    if many == 1 {
        return one_alone(alloc, encoder, read, numbers, end, f);
    }
    let rest = with_low_block(alloc, encoder, read, numbers, end, f)?;
    if numbers.len() == end {
        return Ok((rest, many.saturating_mul(2)));
    }
    let tried = count_read(read, from, end);
    let rest = up_to_higher(alloc, encoder, read, numbers, tried, rest)?;
    Ok((rest, many - many / 2))
}

/// The numbers up to the end of a block in which one cell is read at most, and how many cells to try next.
fn one_alone(
    alloc: Global,
    encoder: &mut Encoder<'_, '_>,
    read: &ReadParts,
    numbers: &mut List<i64>,
    end: usize,
    f: Ref,
) -> Result<(Ref, usize), NoMemory>
    requires f_ref { IsRef encoder.old.diagram f }
    requires from { length numbers.old < end }
    requires end { end ≤ length (all_cells encoder.old.machine.base.spec) }
    ensures keeps { Keeps encoder.old encoder.new }
    ensures is_ref { IfOk result (λ found. IsRef encoder.new.diagram found.0) }
    ensures many { IfOk result (λ found. 0 < found.1) }
    ensures end { IfOk result (λ found. length numbers.new ≡ end) }
    ensures answer { IfOk result (λ found. NarrowedOn encoder.old encoder.new read.now numbers.old numbers.new f found.0) }
{
    let rest = one_by_one(alloc, encoder, read, numbers, end, f)?;
    let many = after_one(encoder.machine().worlds(), numbers.as_slice())?;
    Ok((rest, many))
}

/// How many cells to try together after one alone: two only where that one has its least number.
fn after_one(worlds: &Worlds<'_>, numbers: &[i64]) -> Result<usize, NoMemory>
    requires some { 0 < length numbers.now }
    requires within { length numbers.now ≤ length (all_cells worlds.now) }
    ensures { IfOk result (λ many. 0 < many) }
{
    let last = numbers.len() - 1;
    let low = worlds.low(cell_number(last)?);
    Ok(if numbers[last] == low { 2 } else { 1 })
}

/// The numbers up to a cell that does not have its least of all: one of the next so many that are read.
fn up_to_higher(
    alloc: Global,
    encoder: &mut Encoder<'_, '_>,
    read: &ReadParts,
    numbers: &mut List<i64>,
    many: usize,
    f: Ref,
) -> Result<Ref, NoMemory>
    requires f_ref { IsRef encoder.old.diagram f }
    requires some { length numbers.old < length (all_cells encoder.old.machine.base.spec) }
    ensures keeps { Keeps encoder.old encoder.new }
    ensures is_ref { IfOk result (IsRef encoder.new.diagram) }
    ensures more { IfOk result (λ rest. length numbers.old < length numbers.new) }
    ensures within { IfOk result (λ rest. length numbers.new ≤ length (all_cells encoder.old.machine.base.spec)) }
    ensures answer { IfOk result (NarrowedOn encoder.old encoder.new read.now numbers.old numbers.new f) }
{
    let cells = encoder.machine().cells();
    let mut rest = f;
    let mut many = many;
    while many > 1 {
        let half = many / 2;
        let end = block_end(read, numbers.len(), half, cells);
        let next = with_low_block(alloc, encoder, read, numbers, end, rest)?;
        many = if numbers.len() == end {
            many - half
        } else {
            half
        };
        rest = next;
    }
    let end = block_end(read, numbers.len(), 1, cells);
    one_by_one(alloc, encoder, read, numbers, end, rest)
}

/// The numbers up to a place, of one cell after another.
fn one_by_one(
    alloc: Global,
    encoder: &mut Encoder<'_, '_>,
    read: &ReadParts,
    numbers: &mut List<i64>,
    end: usize,
    f: Ref,
) -> Result<Ref, NoMemory>
    requires f_ref { IsRef encoder.old.diagram f }
    requires from { length numbers.old ≤ end }
    requires end { end ≤ length (all_cells encoder.old.machine.base.spec) }
    ensures keeps { Keeps encoder.old encoder.new }
    ensures is_ref { IfOk result (IsRef encoder.new.diagram) }
    ensures many { IfOk result (λ rest. length numbers.new ≡ end) }
    ensures answer { IfOk result (NarrowedOn encoder.old encoder.new read.now numbers.old numbers.new f) }
{
    let mut rest = f;
    for place in numbers.len()..end {
        let (number, next) = least_number(alloc, encoder, read, cell_number(place)?, rest)?;
        numbers.push(number)?;
        rest = next;
    }
    Ok(rest)
}

/// The least number of a cell with which `f` is true in some world, and `f` where the cell has it. The least of all, where it is not
/// read. Where `f` is true in none, any number.
fn least_number(
    alloc: Global,
    encoder: &mut Encoder<'_, '_>,
    read: &ReadParts,
    cell: u32,
    f: Ref,
) -> Result<(i64, Ref), NoMemory>
    requires f_ref { IsRef encoder.old.diagram f }
    requires cell { cell < length (all_cells encoder.old.machine.base.spec) }
    ensures keeps { Keeps encoder.old encoder.new }
    ensures is_ref { IfOk result (λ found. IsRef encoder.new.diagram found.1) }
    ensures answer { IfOk result (λ found. NarrowedLow encoder.old encoder.new read.now int_cmp (λ w. slice_index_or w.cells cell (pos 0)) found.0 f found.1) }
{
    if !is_read(&read.cells, cell as usize) {
        return Ok((encoder.machine().worlds().low(cell), f));
    }
    let number = least_by_halving(alloc, encoder, cell, f)?;
    let rest = encoder.fixed(f, cell, number)?;
    Ok((number, rest))
}

/// The least number of a cell with which `f` is true in some world, among all its numbers. What `f` tells of the cell is made once,
/// and each half is asked of that.
fn least_by_halving(
    alloc: Global,
    encoder: &mut Encoder<'_, '_>,
    cell: u32,
    f: Ref,
) -> Result<i64, NoMemory>
    requires f_ref { IsRef encoder.old.diagram f }
    requires cell { cell < length (all_cells encoder.old.machine.base.spec) }
    ensures keeps { Keeps encoder.old encoder.new }
    ensures answer { IfOk result (λ number. Bounded encoder.old (λ w. slice_index_or w.cells cell (pos 0)) number number f) }
{
    let worlds = encoder.machine().worlds();
    let mut low = worlds.low(cell);
    let mut high = worlds.high(cell);
    let told = encoder.of_cell(alloc, f, cell)?;
    while low < high {
        let middle = halfway(low, high);
        if encoder.may_be_at_most(told, cell, middle)? {
            high = middle;
        } else {
            low = middle + 1;
        }
    }
    Ok(low)
}

/// A number halfway between two, the lower one of two that are next to each other.
fn halfway(low: i64, high: i64) -> i64
    requires { low <ℤ high }
    ensures low { low ≤ℤ result }
    ensures high { result <ℤ high }
{
    low + (high.abs_diff(low) / 2) as i64
}
