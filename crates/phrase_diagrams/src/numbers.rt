//! Where a sum of cells compares with a number.
ghost use Rattle.std.specs.Prelude.{◌≡◌, ℤ, false, length, IfOk};
ghost use Rattle.rsml_syntax.specs.declared.syntax.Relation.{Relation as Relations};
ghost use Rattle.rsml_syntax.specs.rules.Relations as relations;
ghost use Rattle.rsml_meaning.specs.Cells.{cells};
ghost use Rattle.rsml_ground.specs.Rests.{SumFits};
ghost use Rattle.rsml_ground.specs.Truths.{sum_number};
ghost use Rattle.bdd_core.specs.Calls.{Keeps};
ghost use Rattle.phrase_diagrams.specs.Signs.{IsWithin};
ghost use Rattle.phrase_diagrams.specs.Tells.{Tells};

use crate::bases::sum_base;
use crate::comparisons::comparison_of;
use crate::levels::compare_levels;
use crate::terms::push_sum;
use bdd_core::{Arena, Ref};
use rsml_base::NoMemory;
use rsml_ground::GroundSum;
use rsml_syntax::Relation;
use spelled_numbers::SumTable;
use std::alloc::Global;
use world_levels::Layout;

/// Farther from 0 than each number that a sum can come to.
const FAR: i64 = 1_000_000_000_000;

/// Where a relation holds between a sum and a number.
pub fn compare_number(
    alloc: Global,
    arena: &mut Arena,
    sums: &mut SumTable,
    layout: &Layout<'_>,
    sum: &GroundSum,
    relation: Relation,
    number: i64,
) -> Result<Ref, NoMemory>
    requires levels { arena.old.levels ≡ length layout.now.slots }
    requires sum { SumFits (length (cells layout.now.spec)) sum.now }
    ensures keeps { Keeps arena.old arena.new }
    ensures answer { IfOk result (Tells arena.new layout.now (λ w.
        relations.compare relation (sum_number w.cells sum.now) number)) }
{
    layout.law();
    let mut levels = Vec::new(alloc);
    push_sum(&mut levels, layout, sum, false)?;
    let constant = nearest(number) - sum_base(layout, sum);
    compare_levels(arena, sums, levels, comparison_of(relation), constant)
}

/// The number, or the nearest one that is not too far from 0: no sum tells them apart.
fn nearest(number: i64) -> i64
    ensures near { IsWithin 1000000000000 result }
    ensures same { (relation : Relations) (x : ℤ) → IsWithin 100000000000 x
        → relations.compare relation x result ≡ relations.compare relation x number }
{
    if number > FAR {
        FAR
    } else if number < -FAR {
        -FAR
    } else {
        number
    }
}
