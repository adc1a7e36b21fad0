//! Sums of levels, taken in the order of the levels.
ghost use Rattle.std.specs.Prelude.{◌≡◌, ◌^◌, ◌<◌, IfOk, pos, neg_ℤ, ◌≤ℤ◌};
ghost use Rattle.bdd_core.specs.Calls.{Keeps, Represents};
ghost use Rattle.spelled_numbers.specs.Sums.{signed_sum, total_weight, AreLevels, holds};

use bdd_core::{Arena, Ref};
use rsml_base::NoMemory;
use spelled_numbers::{Comparison, SumTable, Weighted};

/// Where the signed sum of the weights of the true levels compares so with a constant. The levels are taken in their order, so that
/// cells that meet are compared weight by weight, and not one whole cell after another.
pub(crate) fn compare_levels(
    arena: &mut Arena,
    sums: &mut SumTable,
    mut levels: Vec<Weighted>,
    comparison: Comparison,
    constant: i64,
) -> Result<Ref, NoMemory>
    requires levels { AreLevels arena.old levels.items }
    requires small { total_weight levels.items < 2 ^ 44 }
    requires low { neg_ℤ (pos (2 ^ 44)) ≤ℤ constant }
    requires high { constant ≤ℤ pos (2 ^ 44) }
    ensures keeps { Keeps arena.old arena.new }
    ensures answer { IfOk result (Represents arena.new (λ values.
        holds comparison (signed_sum values levels.items) constant)) }
{
    levels.sort_unstable_by_key(|bit| bit.level);
    sums.compare(arena, levels.as_slice(), comparison, constant)
}
