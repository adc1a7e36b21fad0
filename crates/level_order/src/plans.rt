//! The plans of one machine and of two.
ghost use Rattle.std.specs.Prelude.{◌≡◌, [], All, IfOk, length};
ghost use Rattle.rsml_meaning.specs.Cells.{cells};
ghost use Rattle.keyed_levels.specs.Keyed.{PhraseFits};

use crate::alike::first_alike;
use crate::joint::{AlikeInTwo, alike_in_two};
use crate::ordering::{order, order_of_two};
use elaborate::Machine;
use keyed_levels::Plan;
use rsml_base::NoMemory;
use std::alloc::Global;

/// The plan of a machine that is compared with another, and for each phrase of that one the first comparison that is like it.
#[derive(Drop)]
pub struct PlanOfTwo {
    pub plan: Plan,
    pub alike: Vec<u32>,
}

/// The plan of a machine, with no comparison beside its own.
#[tactic(auto, using(crate::proofs::PlanLemmas::none_fit))]
pub fn plan_of(alloc: Global, machine: &Machine<'_>) -> Result<Plan, NoMemory>
    ensures none { IfOk result (λ plan. plan.beside.items ≡ []) }
    ensures fit { IfOk result (λ plan. All (PhraseFits (length (cells machine.now.base.spec))) plan.beside.items) }
{
    let alike = first_alike(alloc, machine.macros())?;
    let order = order(alloc, machine, alike.as_slice())?;
    Ok(Plan {
        order,
        alike,
        beside: Vec::new(alloc),
    })
}

/// A plan for an encoder of the first of two machines with the same worlds, by which it tells the phrases of both. The comparisons of
/// the second that are like none of the first stand beside the phrases of the first.
pub fn plan_of_two(
    alloc: Global,
    one: &Machine<'_>,
    two: &Machine<'_>,
) -> Result<PlanOfTwo, NoMemory>
    ensures { IfOk result (λ p. All (PhraseFits (length (cells two.now.base.spec))) p.plan.beside.items) }
{
    let found = alike_in_two(alloc, one.macros(), two.macros())?;
    let order = order_of_two(alloc, one, two, &found)?;
    let AlikeInTwo {
        one: alike,
        two: others,
        beside,
    } = found;
    let plan = Plan {
        order,
        alike,
        beside,
    };
    Ok(PlanOfTwo {
        plan,
        alike: others,
    })
}
