//! The diagrams of functions.
ghost use Rattle.std.specs.Prelude.{◌≡◌, All, IfOk, length};
ghost use Rattle.std.specs.List.{list_any};
ghost use Rattle.rsml_meaning.specs.Cells.{cells as all_cells};
ghost use Rattle.rsml_ground.specs.Rests.{CaseFits};
ghost use Rattle.bdd_core.specs.Diagram.{IsRef};
ghost use Rattle.bdd_core.specs.Calls.{Keeps, Represents};
ghost use Rattle.phrase_diagrams.specs.Diagrams.{truths_at};
ghost use Rattle.world_levels.specs.Spelling.{world_of};
ghost use Rattle.guard_encode.specs.Phrases.{case_holds};

use crate::test::Test;
use bdd_core::{Arena, Ref};
use phrase_diagrams::{compare_number, guard};
use rsml_base::NoMemory;
use rsml_ground::GroundCase;
use spelled_numbers::SumTable;
use std::alloc::Global;
use world_levels::Layout;

/// Where some case has a true guard and a value that passes the test.
pub fn some_case(
    alloc: Global,
    arena: &mut Arena,
    sums: &mut SumTable,
    layout: &Layout<'_>,
    diagrams: &[Ref],
    cases: &[GroundCase],
    test: &Test,
) -> Result<Ref, NoMemory>
    requires room { arena.old.levels ≡ length layout.now.slots }
    requires diagrams { All (IsRef arena.old) diagrams.now }
    requires cases { All (CaseFits (length (all_cells layout.now.spec)) (length diagrams.now)) cases.now }
    ensures keeps { Keeps arena.old arena.new }
    ensures answer { IfOk result (Represents arena.new (λ values. list_any (case_holds test.now
        (world_of layout.now.spec layout.now.slots values).cells (truths_at arena.old diagrams.now values)) cases.now)) }
{
    let mut out = arena.constant(false);
    for case in cases {
        let holds = one_case(alloc, arena, sums, layout, diagrams, case, test)?;
        out = arena.or(out, holds)?;
    }
    Ok(out)
}

/// Where a case has a true guard and a value that passes the test.
fn one_case(
    alloc: Global,
    arena: &mut Arena,
    sums: &mut SumTable,
    layout: &Layout<'_>,
    diagrams: &[Ref],
    case: &GroundCase,
    test: &Test,
) -> Result<Ref, NoMemory>
    requires room { arena.old.levels ≡ length layout.now.slots }
    requires diagrams { All (IsRef arena.old) diagrams.now }
    requires fits { CaseFits (length (all_cells layout.now.spec)) (length diagrams.now) case.now }
    ensures keeps { Keeps arena.old arena.new }
    ensures answer { IfOk result (Represents arena.new (λ values. case_holds test.now
        (world_of layout.now.spec layout.now.slots values).cells (truths_at arena.old diagrams.now values) case.now)) }
{
    let guard = guard(arena, diagrams, &case.guard)?;
    let compared = compare_number(
        alloc,
        arena,
        sums,
        layout,
        &case.value,
        test.relation,
        test.number,
    )?;
    arena.and(guard, compared)
}
