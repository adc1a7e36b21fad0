//! Which parts of worlds functions read.
ghost use Rattle.std.specs.Prelude.{◌≡◌, ◌+◌, ◌<◌, ◌≤◌, ◌==◌, ℕ, false, IfOk, Some, length, slice_get};
ghost use Rattle.std.specs.List.{list_any};
ghost use Rattle.rsml_meaning.specs.Instances.{components};
ghost use Rattle.rsml_meaning.specs.Cells.{cells};
ghost use Rattle.bdd_core.specs.Diagram.{IsRef};
ghost use Rattle.guard_encode.specs.Marking as spec;
ghost use Rattle.guard_encode.specs.Marking.{AreOfPart, AreRead, Marks};
ghost use Rattle.guard_encode.specs.Reading.{IgnoresCell, IgnoresChoice};
ghost use Rattle.keyed_levels.specs.Keyed.{key_at, phrases_of};
ghost use Rattle.settled_worlds.specs.Steps.{compares, is_cell};

use crate::encoder::Encoder;
use bdd_core::{Arena, Ref};
use keyed_levels::{Keyed, KeyedLevels, keyed_laws};
use rsml_base::{List, NoMemory};
use rsml_ground::{GroundOperand, GroundPhrase, GroundTerm};
use settled_worlds::{is_used, used_levels};
use spelled_numbers::Weighted;
use std::alloc::Global;
use world_levels::{Layout, world_laws};

/// Whether each component and each cell is read.
#[derive(Debug)]
pub struct ReadParts {
    pub choices: List<bool>,
    pub cells: List<bool>,
}

impl Drop for ReadParts {
    fn drop(self) {
        let Self {
            choices: _,
            cells: _,
        } = self;
    }
}

impl<'m, 'a> Encoder<'m, 'a> {
    /// Whether each component and each cell is read by a function.
    pub fn parts_read(&self, alloc: Global, f: Ref) -> Result<ReadParts, NoMemory>
        requires { IsRef self.now.diagram f }
        ensures many_choices { IfOk result (λ read. length read.choices ≡ length (components self.now.machine.base.spec)) }
        ensures many_cells { IfOk result (λ read. length read.cells ≡ length (cells self.now.machine.base.spec)) }
        ensures choices { IfOk result (λ read. (component : ℕ) → slice_get read.choices component ≡ Some false → IgnoresChoice self.now component f) }
        ensures cells { IfOk result (λ read. (cell : ℕ) → slice_get read.cells cell ≡ Some false → IgnoresCell self.now cell f) }
    {
        world_laws();
        keyed_laws();
        read_by(alloc, &self.arena, &self.levels, f)
    }
}

/// The parts of which a function may depend on a level, and the cells that a comparison names of which it may depend on the level.
fn read_by(
    alloc: Global,
    arena: &Arena,
    levels: &KeyedLevels<'_, '_>,
    f: Ref,
) -> Result<ReadParts, NoMemory>
    requires f_ref { IsRef arena.now f }
    requires room { arena.now.levels ≡ length levels.now.slots }
    ensures { IfOk result (AreRead arena.now levels.now f) }
{
    let layout = levels.layout();
    let (components, cells) = (layout.components(), layout.cells());
    let used = used_levels(alloc, arena, layout.levels(), f)?;
    let used = used.as_slice();
    let choices = of_parts(alloc, layout, used, 0, components)?;
    let mut cells = of_parts(alloc, layout, used, components, cells)?;
    mark_compared(levels, used, &mut cells);
    Ok(ReadParts { choices, cells })
}

/// For each of so many parts whether one of its levels is used.
fn of_parts(
    alloc: Global,
    layout: &Layout<'_>,
    used: &[bool],
    first: u32,
    count: u32,
) -> Result<List<bool>, NoMemory>
    requires { first + count ≤ length (components layout.now.spec) + length (cells layout.now.spec) }
    ensures { IfOk result (AreOfPart used.now layout.now.slots first count) }
{
    layout.law();
    let mut marks = List::new(alloc);
    for place in 0..count {
        marks.push(is_spelled(used, layout.bits(first + place)))?;
    }
    Ok(marks)
}

/// Whether one of these levels is used.
fn is_spelled(used: &[bool], bits: &[Weighted]) -> bool
    ensures { result ≡ list_any (spec.is_used_at used.now) bits.now }
{
    bits.iter().any(|bit| is_used(used, bit.level))
}

/// Marks the cells that are named by a comparison whose level is used.
fn mark_compared(levels: &KeyedLevels<'_, '_>, used: &[bool], cells: &mut List<bool>)
    ensures { Marks (spec.is_compared levels.now used.now) cells.old cells.new }
{
    for place in 0..levels.keys().len() {
        mark_key(levels, used, place, cells);
    }
}

/// Marks the cells that are named by the comparison of the key at a place, where its level is used.
fn mark_key(levels: &KeyedLevels<'_, '_>, used: &[bool], place: usize, cells: &mut List<bool>)
    requires { place < length levels.now.keyed }
    ensures { Marks (spec.is_named levels.now used.now (key_at levels.now.keyed place)) cells.old cells.new }
{
    let key = key(levels, place);
    if !is_used(used, key.level) {
        return;
    }
    mark_phrase(levels.phrase(key.phrase), cells);
}

/// For each cell whether the comparison of some key names it.
pub(crate) fn named_cells(
    alloc: Global,
    levels: &KeyedLevels<'_, '_>,
) -> Result<List<bool>, NoMemory> {
    let mut cells = List::new(alloc);
    for _cell in 0..levels.layout().cells() {
        cells.push(false)?;
    }
    for place in 0..levels.keys().len() {
        mark_phrase(levels.phrase(key(levels, place).phrase), &mut cells);
    }
    Ok(cells)
}

/// The key at a place.
fn key(levels: &KeyedLevels<'_, '_>, place: usize) -> Keyed
    requires { place < length levels.now.keyed }
    ensures is { result ≡ key_at levels.now.keyed place }
    ensures phrase { result.phrase < length (phrases_of levels.now) }
{
    levels.keys()[place]
}

/// Marks the cells that a phrase compares.
fn mark_phrase(phrase: &GroundPhrase, cells: &mut List<bool>)
    ensures { Marks (λ cell. compares cell (Some phrase.now)) cells.old cells.new }
{
    match phrase {
        GroundPhrase::Compare { left, right, .. } => {
            mark_terms(left.terms.as_slice(), cells);
            mark_terms(right.terms.as_slice(), cells);
        }
        _ => {}
    }
}

/// Marks the cells among the operands of these terms.
fn mark_terms(terms: &[GroundTerm], cells: &mut List<bool>)
    ensures { Marks (λ cell. list_any (spec.is_cell_at cell) terms.now) cells.old cells.new }
{
    for term in terms {
        mark_operand(term.operand, cells);
    }
}

/// Marks the cell that an operand is.
fn mark_operand(operand: GroundOperand, cells: &mut List<bool>)
    ensures { Marks (λ cell. is_cell cell operand) cells.old cells.new }
{
    if let GroundOperand::Cell(cell) = operand {
        mark(cell as usize, cells);
    }
}

/// Marks one cell, where it is one of these.
fn mark(cell: usize, cells: &mut List<bool>)
    ensures { Marks (λ other. cell == other) cells.old cells.new }
{
    if cell < cells.len() {
        cells.set(cell, true);
    }
}
