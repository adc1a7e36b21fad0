ghost use Rattle.std.specs.Prelude.{◌≡◌, [], ◌∷◌, ◌++◌, IfOk, List, OnOk};
ghost use Rattle.std.specs.List.{AllZip};
ghost use Rattle.rsml_syntax.specs.declared.syntax.Spec.{Spec};
ghost use Rattle.rsml_meaning.specs.Interfaces as meaning;
ghost use Rattle.rsml_ground.specs.declared.phrases.GroundPhrase.{GroundPhrase};
ghost use Rattle.rsml_ground.specs.StandsFor.{DefinitionIs};
ghost use Rattle.ground_groups.specs.Stored.{IsFunctionGroup, function_groups};

use crate::places::number_of;
use rsml_ground::Definition;
use rsml_syntax::NoMemory;
use std::alloc::Global;

/// A function instance by its number, and how many cases it has.
#[derive(Clone, Copy, Drop)]
pub struct FunctionGroup {
    pub function: u32,
    pub cases: u32,
}

/// The function instances among definitions.
pub fn functions(alloc: Global, definitions: &[Definition]) -> Result<Vec<FunctionGroup>, NoMemory>
    ensures { IfOk result (λ groups. (ps : List GroundPhrase) (s : Spec)
        → AllZip (DefinitionIs ps s) (meaning.definitions s) definitions.now
        → AllZip (IsFunctionGroup s) (meaning.functions s) groups.items) }
{
    let mut groups = Vec::new(alloc);
    for (place, definition) in definitions.iter().enumerate() {
        put(&mut groups, number_of(place)?, definition)?;
    }
    Ok(groups)
}

// Puts a definition last where it is a function.
fn put(
    groups: &mut Vec<FunctionGroup>,
    function: u32,
    definition: &Definition,
) -> Result<(), NoMemory>
    ensures { OnOk result (groups.new.items
        ≡ groups.old.items ++ function_groups function (definition.now ∷ [])) }
{
    if let Definition::Function(cases) = definition {
        let cases = number_of(cases.len())?;
        groups.push(FunctionGroup { function, cases })?;
    }
    Ok(())
}
