//! The diagram of one phrase, from those of the phrases before it.
ghost use Rattle.std.specs.Prelude.{◌≡◌, ◌≤◌, ℕ, true, All, IfOk, Some, length, slice_get};
ghost use Rattle.std.specs.List.{list_any};
ghost use Rattle.rsml_syntax.specs.rules.Relations as relations;
ghost use Rattle.rsml_meaning.specs.Cells.{cells as all_cells};
ghost use Rattle.rsml_ground.specs.Rests.{DefinitionFits};
ghost use Rattle.rsml_ground.specs.Truths as spec;
ghost use Rattle.bdd_core.specs.Diagram.{IsRef};
ghost use Rattle.bdd_core.specs.Calls.{Keeps, Represents};
ghost use Rattle.world_levels.specs.Spelling.{world_of};
ghost use Rattle.phrase_diagrams.specs.Diagrams.{truths_at};

use crate::cases::some_case;
use crate::test::Test;
use bdd_core::{Arena, Ref};
use phrase_diagrams::table;
use rsml_base::NoMemory;
use rsml_ground::Definition;
use spelled_numbers::SumTable;
use std::alloc::Global;
use world_levels::Layout;

/// Where a state is active. A number that no state has counts as active.
pub fn of_state(arena: &Arena, active: &[Ref], node: u32) -> Ref
    ensures there { (f : ℕ) → slice_get active.now node ≡ Some f → result ≡ f }
    ensures past { length active.now ≤ node → Represents arena.now (λ values. true) result }
{
    match active.get(node as usize) {
        Some(f) => *f,
        None => arena.constant(true),
    }
}

/// Where the table of a macro is true. A function has none.
pub fn of_macro(
    arena: &mut Arena,
    diagrams: &[Ref],
    definition: &Definition,
) -> Result<Ref, NoMemory>
    requires diagrams { All (IsRef arena.old) diagrams.now }
    requires fits { (cells : ℕ) × DefinitionFits cells (length diagrams.now) definition.now }
    ensures keeps { Keeps arena.old arena.new }
    ensures answer { IfOk result (Represents arena.new (λ values. spec.macro_truth (truths_at arena.old diagrams.now values) (Some definition.now))) }
{
    match definition {
        Definition::Macro(rows) => table(arena, diagrams, rows),
        Definition::Function(_) => Ok(arena.constant(false)),
    }
}

/// Where some value of a function passes the test. A macro has no values.
pub fn of_function(
    alloc: Global,
    arena: &mut Arena,
    sums: &mut SumTable,
    layout: &Layout<'_>,
    diagrams: &[Ref],
    definition: &Definition,
    test: &Test,
) -> Result<Ref, NoMemory>
    requires room { arena.old.levels ≡ length layout.now.slots }
    requires diagrams { All (IsRef arena.old) diagrams.now }
    requires fits { DefinitionFits (length (all_cells layout.now.spec)) (length diagrams.now) definition.now }
    ensures keeps { Keeps arena.old arena.new }
    ensures answer { IfOk result (Represents arena.new (λ values. list_any (λ x. relations.compare test.now.relation x test.now.number)
        (spec.function_values (world_of layout.now.spec layout.now.slots values).cells (truths_at arena.old diagrams.now values) (Some definition.now)))) }
{
    match definition {
        Definition::Macro(_) => Ok(arena.constant(false)),
        Definition::Function(cases) => some_case(
            alloc,
            arena,
            sums,
            layout,
            diagrams,
            cases.as_slice(),
            test,
        ),
    }
}
