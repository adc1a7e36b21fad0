ghost use Rattle.std.specs.Prelude.{◌<◌, IfOk, length};
ghost use Rattle.rsml_meaning.specs.Cells.{cells};
ghost use Rattle.rsml_meaning.specs.Interfaces.{definitions as all_definitions};
ghost use Rattle.rsml_meaning.specs.Truth.{within};
ghost use Rattle.rsml_ground.specs.Grounded.{IsGrounded};
ghost use Rattle.rsml_ground.specs.Numbers.{Keeps};
ghost use Rattle.rsml_ground.specs.Rests.{GuardFits, SumFits};
ghost use Rattle.rsml_ground.specs.StandsFor.{GuardIs, SumIs, IsFunction};
ghost use Rattle.rsml_ground.specs.Scoped.{GuardIsScoped, SumIsScoped, FunctionIsScoped};

use crate::here::Here;
use crate::lookup::Lookup;
use crate::site::Site;
use crate::sums::ground_sum;
use crate::tables::ground_guard;
use rsml_ground::{Definition, GroundGuard, GroundSum, Phrases};
use rsml_syntax::{Guard, Mention, NoMemory, Sum};
use std::alloc::Global;

/// The guard of a transition or of a case of a send, in the instance of an index. Its phrases are added where they have no
/// number yet.
pub fn guard(
    alloc: Global,
    lookup: &Lookup<'_, '_>,
    definitions: &[Definition],
    phrases: &mut Phrases,
    this: u8,
    guard: &Guard,
) -> Result<GroundGuard, NoMemory>
    requires before { IsGrounded (record { spec = lookup.now; phrases = phrases.old; definitions = definitions.now }) }
    requires scoped { GuardIsScoped lookup.now (length (all_definitions lookup.now)) (within this) guard.now }
    ensures after { IsGrounded (record { spec = lookup.now; phrases = phrases.new; definitions = definitions.now }) }
    ensures kept { Keeps phrases.old phrases.new }
    ensures is { IfOk result (λ x. GuardIs phrases.new lookup.now (within this) guard.now x) }
    ensures fits { IfOk result (λ x. GuardFits (length phrases.new) x) }
{
    let site = Site {
        lookup,
        definitions,
        this,
    };
    let guard = ground_guard(alloc, &site, phrases, guard);
    let _ = phrases.len();
    guard
}

/// The sum of a value that is sent, in the instance of an index.
pub fn sum(
    alloc: Global,
    lookup: &Lookup<'_, '_>,
    this: u8,
    sum: &Sum,
) -> Result<GroundSum, NoMemory>
    requires { SumIsScoped lookup.now (within this) sum.now }
    ensures is { IfOk result (λ x. SumIs lookup.now (within this) sum.now x) }
    ensures fits { IfOk result (λ x. SumFits (length (cells lookup.now)) x) }
{
    let here = Here::within(this);
    ground_sum(alloc, lookup, &here, sum)
}

/// The number of the function instance that is mentioned, in the instance of an index.
#[tactic(auto, using(crate::proofs::Operands::function_is, crate::proofs::Operands::function_below))]
pub fn function_number(lookup: &Lookup<'_, '_>, this: u8, mention: &Mention) -> u32
    requires { FunctionIsScoped lookup.now (length (all_definitions lookup.now)) (within this) mention.now }
    ensures is { IsFunction lookup.now (within this) mention.now result }
    ensures there { result < length (all_definitions lookup.now) }
{
    let here = Here::within(this);
    lookup.definition(&here, mention)
}
