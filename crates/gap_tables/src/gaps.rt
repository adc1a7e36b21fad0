ghost use Rattle.std.specs.Prelude.{◌≡◌, ◌&&◌, Bool, not, IfOk, IfSome};
ghost use Rattle.rsml_syntax.specs.declared.world.World.{World as SpecWorld};
ghost use Rattle.bdd_core.specs.Diagram.{IsRef};
ghost use Rattle.guard_encode.specs.Encoding.{Grows, HasNoBounds, Keeps, Tells, TellsExactly};
ghost use Rattle.world_columns.specs.Gaps.{AreGaps, EndsWith};
ghost use Rattle.gap_tables.specs.Widening.{IsNextColumn, TellsAll};

use crate::column::column_of;
use bdd_core::Ref;
use group_verdicts::least_world;
use guard_encode::Encoder;
use instance_texts::Texts;
use rsml_base::{List, NoMemory};
use std::alloc::Global;
use world_columns::{Column, Gaps};

/// The columns of the worlds in which `f` is true, at most so many, and whether some of these worlds are in none. `texts` are those of
/// the encoder's specification. The encoder has no bounds; those that are made are taken back.
pub fn columns(
    alloc: Global,
    encoder: &mut Encoder<'_, '_>,
    texts: &Texts<'_>,
    f: Ref,
    most: u32,
) -> Result<Gaps, NoMemory>
    requires texts { texts.now ≡ encoder.old.machine.base.spec }
    requires f_ref { IsRef encoder.old.diagram f }
    requires bounds { HasNoBounds encoder.old }
    ensures keeps { Keeps encoder.old encoder.new }
    ensures answer { IfOk result (λ g. (truth : SpecWorld → Bool) → Tells encoder.old truth f
        → AreGaps encoder.new.machine.base.spec truth most g.columns g.more) }
{
    let found = columns_by(alloc, encoder, texts, f, most);
    encoder.without_bounds();
    found
}

/// The same, with levels that stand for bounds.
#[tactic(auto, using(guard_encode::proofs::BoundLemmas::keeps_grows, guard_encode::proofs::BoundLemmas::grows_on, guard_encode::proofs::BoundLemmas::grows_itself))]
fn columns_by(
    alloc: Global,
    encoder: &mut Encoder<'_, '_>,
    texts: &Texts<'_>,
    f: Ref,
    most: u32,
) -> Result<Gaps, NoMemory>
    requires texts { texts.now ≡ encoder.old.machine.base.spec }
    requires f_ref { IsRef encoder.old.diagram f }
    ensures keeps { Grows encoder.old encoder.new }
    ensures answer { IfOk result (λ g. (truth : SpecWorld → Bool) → Tells encoder.old truth f
        → AreGaps encoder.new.machine.base.spec truth most g.columns g.more) }
{
    let mut columns = List::new(alloc);
    let mut rest = encoder.decided(alloc, f)?;
    for _turn in 0..most {
        let Some((column, left)) = next_column(alloc, encoder, texts, rest)? else {
            return Ok(Gaps {
                columns,
                more: false,
            });
        };
        columns.push(column)?;
        rest = left;
    }
    let more = is_left(alloc, encoder, rest)?;
    Ok(Gaps { columns, more })
}

/// The column of the least world of a set, and the worlds of the set that are in none of the columns then. None where no world is
/// in the set, and also where `set` tells none: then what is found as the least need not be a world.
#[tactic(auto, using(guard_encode::proofs::BoundLemmas::keeps_grows, guard_encode::proofs::BoundLemmas::grows_on, guard_encode::proofs::BoundLemmas::grows_itself))]
fn next_column(
    alloc: Global,
    encoder: &mut Encoder<'_, '_>,
    texts: &Texts<'_>,
    set: Ref,
) -> Result<Option<(Column, Ref)>, NoMemory>
    requires texts { texts.now ≡ encoder.old.machine.base.spec }
    requires set_ref { IsRef encoder.old.diagram set }
    ensures keeps { Grows encoder.old encoder.new }
    ensures is_ref { IfOk result (λ found. IfSome found (λ next. IsRef encoder.new.diagram next.1)) }
    ensures answer { IfOk result (λ found. (truth : SpecWorld → Bool) → TellsAll encoder.old truth set
        → IsNextColumn encoder.old encoder.new truth found) }
{
    let Some(world) = least_world(alloc, encoder, set)? else {
        return Ok(None);
    };
    if !encoder.machine().worlds().fits(&world) {
        return Ok(None);
    }
    let (column, inside) = column_of(alloc, encoder, texts, &world, set)?;
    let left = without(alloc, encoder, set, inside)?;
    Ok(Some((column, left)))
}

/// The worlds of a set that are not inside another.
fn without(
    alloc: Global,
    encoder: &mut Encoder<'_, '_>,
    set: Ref,
    inside: Ref,
) -> Result<Ref, NoMemory>
    requires set_ref { IsRef encoder.old.diagram set }
    requires inside_ref { IsRef encoder.old.diagram inside }
    ensures keeps { Keeps encoder.old encoder.new }
    ensures is_ref { IfOk result (IsRef encoder.new.diagram) }
    ensures answer { IfOk result (λ r. (one other : SpecWorld → Bool) → Tells encoder.old one set → Tells encoder.old other inside
        → TellsExactly encoder.new (λ v. one v && not (other v)) r) }
{
    let outside = encoder.not(inside)?;
    let left = encoder.and(set, outside)?;
    encoder.decided(alloc, left)
}

/// Whether some world is left.
fn is_left(alloc: Global, encoder: &mut Encoder<'_, '_>, set: Ref) -> Result<bool, NoMemory>
    requires { IsRef encoder.old.diagram set }
    ensures keeps { Keeps encoder.old encoder.new }
    ensures answer { IfOk result (λ more. (truth : SpecWorld → Bool) → TellsAll encoder.old truth set
        → EndsWith encoder.old.machine.base.spec truth 0 more) }
{
    let world = least_world(alloc, encoder, set)?;
    Ok(world.is_some())
}
