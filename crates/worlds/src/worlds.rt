ghost use Rattle.std.specs.Prelude.{◌≡◌, ◌<◌, IfOk, Some, false, length, slice_get};
ghost use Rattle.std.specs.Option.{option_map_or};
ghost use Rattle.std.specs.Cmp.Lexicographic.{pointwise};
ghost use Rattle.rsml_meaning.specs.Worlds.{IsWorld, is_world};
ghost use Rattle.rsml_meaning.specs.Cells.{InputCell, cells, is_of};
ghost use Rattle.rsml_meaning.specs.Runs.{first_world};
ghost use Rattle.worlds.specs.Ends as spec;

use crate::cell_ends::CellEnds;
use crate::ends::ends;
use crate::first::{first_choices, first_numbers};
use rsml_syntax::{Checked, NoMemory, World};
use state_tree::Tree;
use std::alloc::Global;
use std::marker::Model;

/// The worlds of a specification. Contracts see them as the specification.
pub struct Worlds<'a> {
    tree: Tree<'a>,
    ends: Vec<CellEnds<'a>>,
}

impl Drop for Worlds<'_> {
    fn drop(self) {
        let Self { tree: _, ends: _ } = self;
    }
}

impl<'a> Model for Worlds<'a> {
    ghost use Rattle.std.specs.Prelude.{map};
    ghost use Rattle.std.specs.Coded.{codes};
    ghost use Rattle.rsml_syntax.specs.declared.syntax.Spec.{Spec};
    ghost use Rattle.rsml_syntax.specs.contracts.syntax.Body as bodies;
    ghost use Rattle.worlds.specs.Ends.{written};
    ghost use Rattle.worlds.specs.Worlds.{AreWorlds};

    ghost Value = { Spec };

    ghost coded = { Prim.hlevel (codes, bodies.the_row.coded) };

    ghost view = { λ w. w.tree };

    ghost invariant = { λ w. AreWorlds w.tree (map written w.ends.items) };
}

/// Whether the number is one that the cell may hold.
fn is_between(cell: &CellEnds<'_>, number: i64) -> bool
    ensures { result ≡ spec.is_between (spec.written cell.now) number }
{
    cell.low <= number && number <= cell.high
}

/// Whether each number is one that its cell may hold.
fn are_between(ends: &[CellEnds<'_>], numbers: &[i64]) -> bool
    ensures { result ≡ pointwise (λ e n. spec.is_between (spec.written e) n) ends.now numbers.now }
{
    if ends.len() != numbers.len() {
        return false;
    }
    for (place, cell) in ends.iter().enumerate() {
        if !is_between(cell, numbers[place]) {
            return false;
        }
    }
    true
}

impl<'a> Worlds<'a> {
    /// For the worlds of a specification.
    pub fn new(alloc: Global, checked: &'a Checked) -> Result<Worlds<'a>, NoMemory>
        ensures { IfOk result (λ worlds. worlds ≡ checked.now) }
    {
        let _ = checked.spec();
        let tree = Tree::build(alloc, checked)?;
        let ends = ends(alloc, checked)?;
        Ok(Worlds { tree, ends })
    }

    /// The tree of the specification.
    pub fn tree(&self) -> &Tree<'a>
        ensures { result.now ≡ self.now }
    {
        &self.tree
    }

    /// How many cells a world has.
    pub fn cells(&self) -> usize
        ensures { result ≡ length (cells self.now) }
    {
        let _ = &self.tree;
        self.ends.len()
    }

    /// Whether the cell of a number may hold a number. Not where there are no more cells than that.
    pub fn may_hold(&self, cell: u32, number: i64) -> bool
        ensures { result ≡ option_map_or (λ c. is_of c.numbers number) (slice_get (cells self.now) cell) false }
    {
        match self.ends.get(cell as usize) {
            Some(ends) => is_between(ends, number),
            None => false,
        }
    }

    /// The least number that a cell may hold.
    pub fn low(&self, cell: u32) -> i64
        requires { cell < length (cells self.now) }
        ensures { (c : InputCell) → slice_get (cells self.now) cell ≡ Some c → result ≡ c.numbers.low }
    {
        let _ = &self.tree;
        self.ends[cell as usize].low
    }

    /// The greatest number that a cell may hold.
    pub fn high(&self, cell: u32) -> i64
        requires { cell < length (cells self.now) }
        ensures { (c : InputCell) → slice_get (cells self.now) cell ≡ Some c → result ≡ c.numbers.high }
    {
        let _ = &self.tree;
        self.ends[cell as usize].high
    }

    /// The first world: each component has its default child, and each cell its input's initial number.
    pub fn first(&self, alloc: Global) -> Result<World, NoMemory>
        ensures first { IfOk result (λ world. world ≡ first_world self.now) }
        ensures fits { IfOk result (λ world. IsWorld self.now world) }
    {
        let choices = first_choices(alloc, &self.tree)?;
        let cells = first_numbers(alloc, self.ends.as_slice())?;
        Ok(World { choices, cells })
    }

    /// Whether this is a world of the specification.
    pub fn fits(&self, world: &World) -> bool
        ensures { result ≡ is_world self.now world.now }
    {
        let _ = &self.tree;
        self.tree.fits(world.choices.as_slice())
            && are_between(self.ends.as_slice(), world.cells.as_slice())
    }
}
