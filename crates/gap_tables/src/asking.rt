//! The worlds that would come into a column.
ghost use Rattle.std.specs.Prelude.{◌&&◌, Bool, IfOk};
ghost use Rattle.rsml_syntax.specs.declared.world.World.{World};
ghost use Rattle.bdd_core.specs.Diagram.{IsRef};
ghost use Rattle.guard_encode.specs.Encoding.{Finds, Keeps, Tells};

use bdd_core::Ref;
use guard_encode::Encoder;
use rsml_base::NoMemory;

/// The worlds outside a set that have the parts of a column so far, and later parts that `after` finds.
pub(crate) fn coming(
    encoder: &mut Encoder<'_, '_>,
    after: Ref,
    others: Ref,
    inside: Ref,
) -> Result<Ref, NoMemory>
    requires after_ref { IsRef encoder.old.diagram after }
    requires others_ref { IsRef encoder.old.diagram others }
    requires inside_ref { IsRef encoder.old.diagram inside }
    ensures keeps { Keeps encoder.old encoder.new }
    ensures is_ref { IfOk result (IsRef encoder.new.diagram) }
    ensures answer { IfOk result (λ r. (later other in_column : World → Bool) → Finds encoder.old later after → Tells encoder.old other others
        → Tells encoder.old in_column inside → Finds encoder.new (λ v. (later v && other v) && in_column v) r) }
{
    let outside = encoder.and(after, others)?;
    encoder.and(outside, inside)
}
