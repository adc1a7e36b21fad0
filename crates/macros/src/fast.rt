ghost use Rattle.std.specs.Prelude.{◌≡◌, All, IfOk, map};
ghost use Rattle.rsml_ground.specs.Rests.{CaseFits, DefinitionFits};
ghost use Rattle.macros.specs.Guards as spec;
ghost use Rattle.macros.specs.Guards.{HasShape};

use crate::guards::FastGuard;
use rsml_ground::{Definition, GroundCase};
use rsml_syntax::{List, NoMemory};
use std::alloc::Global;

/// The guards of definitions, in order.
pub fn tables_of(
    alloc: Global,
    definitions: &[Definition],
) -> Result<Vec<List<FastGuard>>, NoMemory>
    requires { All (λ d. All HasShape (spec.guards_of d)) definitions.now }
    ensures { IfOk result (λ tables. tables.items ≡ map spec.guards_of definitions.now) }
{
    let mut tables = Vec::with_capacity(alloc, definitions.len())?;
    for definition in definitions {
        tables.push(guards_of(alloc, definition)?)?;
    }
    Ok(tables)
}

/// The guards of a definition.
fn guards_of(alloc: Global, definition: &Definition) -> Result<List<FastGuard>, NoMemory>
    requires { All HasShape (spec.guards_of definition.now) }
    ensures { IfOk result (λ guards. guards ≡ spec.guards_of definition.now) }
{
    match definition {
        Definition::Macro(table) => {
            let mut guards = List::with_capacity(alloc, 1)?;
            guards.push(FastGuard::of_table(alloc, table)?)?;
            Ok(guards)
        }
        Definition::Function(cases) => guards_of_cases(alloc, cases.as_slice()),
    }
}

/// The guards of a function's cases, in order.
fn guards_of_cases(alloc: Global, cases: &[GroundCase]) -> Result<List<FastGuard>, NoMemory>
    requires { All (λ c. HasShape c.guard) cases.now }
    ensures { IfOk result (λ guards. guards ≡ map (λ c. c.guard) cases.now) }
{
    let mut guards = List::with_capacity(alloc, cases.len())?;
    for case in cases {
        guards.push(FastGuard::new(alloc, &case.guard)?)?;
    }
    Ok(guards)
}
