//! Where a component has a child.
ghost use Rattle.std.specs.Prelude.{◌≡◌, ◌==◌, ◌^◌, ◌<◌, length, slice_index_or, IfOk};
ghost use Rattle.rsml_meaning.specs.Instances.{components};
ghost use Rattle.bdd_core.specs.Calls.{Keeps, Represents};
ghost use Rattle.spelled_numbers.specs.Sums.{weight_sum, total_weight, AreLevels, AddOnly};
ghost use Rattle.phrase_diagrams.specs.Tells.{Tells};

use bdd_core::{Arena, Ref};
use rsml_base::NoMemory;
use spelled_numbers::{SumTable, Weighted};
use world_levels::Layout;

/// Where a component has the child at a place.
pub fn choice(
    arena: &mut Arena,
    sums: &mut SumTable,
    layout: &Layout<'_>,
    component: u32,
    place: u8,
) -> Result<Ref, NoMemory>
    requires levels { arena.old.levels ≡ length layout.now.slots }
    requires component { component < length (components layout.now.spec) }
    ensures keeps { Keeps arena.old arena.new }
    ensures answer { IfOk result (Tells arena.new layout.now (λ w.
        slice_index_or w.choices component 0 == place)) }
{
    layout.law();
    number_is(arena, sums, layout.bits(component), u64::from(place))
}

/// Where the weights of the true levels, none of them taken off, sum to exactly this number.
fn number_is(
    arena: &mut Arena,
    sums: &mut SumTable,
    bits: &[Weighted],
    number: u64,
) -> Result<Ref, NoMemory>
    requires levels { AreLevels arena.old bits.now }
    requires add { AddOnly bits.now }
    requires small { total_weight bits.now < 2 ^ 64 }
    ensures keeps { Keeps arena.old arena.new }
    ensures answer { IfOk result (Represents arena.new (λ values.
        weight_sum values bits.now == number)) }
{
    let most = sums.at_most(arena, bits, number)?;
    if number == 0 {
        return Ok(most);
    }
    let less = sums.at_most(arena, bits, number - 1)?;
    let least = arena.not(less)?;
    arena.and(most, least)
}
