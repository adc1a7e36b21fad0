ghost use Rattle.std.specs.Prelude.{◌≡◌, [], ◌∷◌, ◌++◌, IfOk};
ghost use Rattle.rsml_meaning.specs.Words.{at, child_path};

use rsml_syntax::{NoMemory, Text};
use std::alloc::Global;
use std::marker::Model;

/// One step of a path: a state's name, and the index of an array's element, or 0 for a plain state.
#[derive(Drop)]
pub struct StepRef<'a> {
    pub name: &'a Text,
    pub index: u8,
}

impl<'a> Model for StepRef<'a> {
    ghost use Rattle.rsml_syntax.specs.declared.world.Step as spec;

    ghost Value = { spec.Step };

    ghost view = { λ s. record { name = s.name.now; index = s.index } };
}

/// A copy of a path.
pub fn copied<'a>(alloc: Global, path: &[StepRef<'a>]) -> Result<Vec<StepRef<'a>>, NoMemory>
    ensures { IfOk result (λ p. p.items ≡ path.now) }
{
    let mut steps = Vec::new(alloc);
    for step in path {
        steps.push(StepRef {
            name: step.name,
            index: step.index,
        })?;
    }
    Ok(steps)
}

/// The path that goes one step further.
pub fn below<'a>(
    alloc: Global,
    path: &[StepRef<'a>],
    name: &'a Text,
    index: u8,
) -> Result<Vec<StepRef<'a>>, NoMemory>
    ensures { IfOk result (λ p. p.items ≡ child_path path.now (at name.now index)) }
{
    let mut steps = copied(alloc, path)?;
    steps.push(StepRef { name, index })?;
    Ok(steps)
}
