//! Where two sums of cells compare.
ghost use Rattle.std.specs.Prelude.{◌≡◌, ℤ, ◌++◌, true, false, length, IfOk};
ghost use Rattle.rsml_syntax.specs.rules.Relations as relations;
ghost use Rattle.rsml_meaning.specs.Cells.{cells};
ghost use Rattle.rsml_ground.specs.Rests.{SumFits};
ghost use Rattle.rsml_ground.specs.Truths.{sum_number};
ghost use Rattle.bdd_core.specs.Calls.{Keeps};
ghost use Rattle.spelled_numbers.specs.Sums.{holds};
ghost use Rattle.phrase_diagrams.specs.Tells.{Tells};
ghost use Rattle.phrase_diagrams.specs.Terms.{sum_levels};

use crate::bases::sum_base;
use crate::levels::compare_levels;
use crate::terms::push_sum;
use bdd_core::{Arena, Ref};
use rsml_base::NoMemory;
use rsml_ground::GroundSum;
use rsml_syntax::Relation;
use spelled_numbers::{Comparison, SumTable, Weighted};
use std::alloc::Global;
use world_levels::Layout;

/// Where a relation holds between two sums.
pub fn compare(
    alloc: Global,
    arena: &mut Arena,
    sums: &mut SumTable,
    layout: &Layout<'_>,
    left: &GroundSum,
    relation: Relation,
    right: &GroundSum,
) -> Result<Ref, NoMemory>
    requires levels { arena.old.levels ≡ length layout.now.slots }
    requires left { SumFits (length (cells layout.now.spec)) left.now }
    requires right { SumFits (length (cells layout.now.spec)) right.now }
    ensures keeps { Keeps arena.old arena.new }
    ensures answer { IfOk result (Tells arena.new layout.now (λ w.
        relations.compare relation (sum_number w.cells left.now) (sum_number w.cells right.now))) }
{
    layout.law();
    let levels = difference(alloc, layout, left, right)?;
    let constant = sum_base(layout, right) - sum_base(layout, left);
    compare_levels(arena, sums, levels, comparison_of(relation), constant)
}

/// The levels of one sum, and those of another taken off.
fn difference(
    alloc: Global,
    layout: &Layout<'_>,
    left: &GroundSum,
    right: &GroundSum,
) -> Result<Vec<Weighted>, NoMemory>
    requires left { SumFits (length (cells layout.now.spec)) left.now }
    requires right { SumFits (length (cells layout.now.spec)) right.now }
    ensures { IfOk result (λ levels. levels.items
        ≡ sum_levels layout.now false left.now ++ sum_levels layout.now true right.now) }
{
    let mut levels = Vec::new(alloc);
    push_sum(&mut levels, layout, left, false)?;
    push_sum(&mut levels, layout, right, true)?;
    Ok(levels)
}

/// The comparison that a relation asks for.
pub(crate) fn comparison_of(relation: Relation) -> Comparison
    ensures { (x y : ℤ) → holds result x y ≡ relations.compare relation x y }
{
    match relation {
        Relation::Equal => Comparison::Equal,
        Relation::NotEqual => Comparison::NotEqual,
        Relation::Less => Comparison::Less,
        Relation::LessEqual => Comparison::LessEqual,
        Relation::Greater => Comparison::Greater,
        Relation::GreaterEqual => Comparison::GreaterEqual,
    }
}
