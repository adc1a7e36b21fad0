ghost use Rattle.std.specs.Prelude.{◌≡◌, Bool, false, IfOk, MatchOption};
ghost use Rattle.rsml_syntax.specs.declared.world.World.{World as SpecWorld};
ghost use Rattle.rsml_meaning.specs.Worlds.{IsWorld};
ghost use Rattle.bdd_core.specs.Diagram.{IsRef};
ghost use Rattle.guard_encode.specs.Encoding.{Keeps, TellsExactly};
ghost use Rattle.group_verdicts.specs.Least.{IsLeastWorld};

use crate::cells::least_cells;
use crate::choices::least_choices;
use bdd_core::Ref;
use guard_encode::Encoder;
use rsml_base::NoMemory;
use rsml_syntax::World;
use std::alloc::Global;

/// The least world in which `f` is true: first the components by the place of their child, then the cells by their numbers. None
/// exactly where it is true in none; then it is the function that is false everywhere.
pub fn least_world(
    alloc: Global,
    encoder: &mut Encoder<'_, '_>,
    f: Ref,
) -> Result<Option<World>, NoMemory>
    requires { IsRef encoder.old.diagram f }
    ensures keeps { Keeps encoder.old encoder.new }
    ensures answer { IfOk result (λ found. (truth : SpecWorld → Bool) → TellsExactly encoder.old truth f
        → MatchOption found ((w : SpecWorld) → IsWorld encoder.new.machine.base.spec w → truth w ≡ false) (IsLeastWorld encoder.new.machine.base.spec truth)) }
{
    if encoder.is_false(f) {
        return Ok(None);
    }
    let read = encoder.parts_read(alloc, f)?;
    let (choices, rest) = least_choices(alloc, encoder, &read, f)?;
    let cells = least_cells(alloc, encoder, &read, rest)?;
    Ok(Some(World { choices, cells }))
}
