ghost use Rattle.std.specs.Prelude.{◌≡◌, ◌<◌, Some, length, map, slice_get};
ghost use Rattle.rsml_meaning.specs.Words.{Each};
ghost use Rattle.rsml_meaning.specs.Worlds.{IsWorld};
ghost use Rattle.macros.specs.Known.{Knows};
ghost use Rattle.ground_members.specs.declared.send_cases.GroundSendCase.{GroundSendCase as SendCase};
ghost use Rattle.micro_step.specs.Numbers as spec;
ghost use Rattle.micro_step.specs.Numbers.{AreOfCase, HaveRoom, ValueFits, case_numbers, values_of};

use elaborate::Machine;
use ground_members::{GroundAnswer, GroundValue};
use macros::Memo;
use rsml_syntax::World;

/// The number of a value in the world.
fn value_number(machine: &Machine<'_>, world: &World, memo: &mut Memo, value: &GroundValue) -> i64
    requires world { IsWorld machine.now.base.spec world.now }
    requires knows { Knows machine.now.base world.now memo.old }
    requires value { ValueFits machine.now value.now }
    ensures number { result ≡ spec.value_number machine.now world.now value.now }
    ensures knows { Knows machine.now.base world.now memo.new }
{
    let macros = machine.macros();
    match value {
        GroundValue::Sum(sum) => macros.number(world, sum),
        GroundValue::Function(function) => {
            macros.ask_value(machine.tree(), world, memo, *function)
        }
    }
}

/// Writes the numbers of values in the world.
fn write(
    machine: &Machine<'_>,
    world: &World,
    memo: &mut Memo,
    values: &[GroundValue],
    numbers: &mut Vec<i64>,
)
    requires world { IsWorld machine.now.base.spec world.now }
    requires knows { Knows machine.now.base world.now memo.old }
    requires values { Each (ValueFits machine.now) values.now }
    requires room { length numbers.old.items ≡ length values.now }
    ensures numbers { numbers.new.items ≡ map (spec.value_number machine.now world.now) values.now }
    ensures knows { Knows machine.now.base world.now memo.new }
{
    for (place, value) in values.iter().enumerate() {
        numbers[place] = value_number(machine, world, memo, value);
    }
}

/// Writes the numbers of the values of a case of a send in the world; a quiet one has none.
fn write_case(
    machine: &Machine<'_>,
    world: &World,
    memo: &mut Memo,
    case: u32,
    numbers: &mut Vec<i64>,
)
    requires world { IsWorld machine.now.base.spec world.now }
    requires knows { Knows machine.now.base world.now memo.old }
    requires case { case < length machine.now.send_cases }
    requires room { (x : SendCase) → slice_get machine.now.send_cases case ≡ Some x
        → length numbers.old.items ≡ length (values_of x.answer) }
    ensures numbers { (x : SendCase) → slice_get machine.now.send_cases case ≡ Some x
        → numbers.new.items ≡ case_numbers machine.now world.now x }
    ensures knows { Knows machine.now.base world.now memo.new }
{
    machine.law();
    let written = machine.send_case(case);
    match written.answer() {
        GroundAnswer::Quiet => {}
        GroundAnswer::Values(values) => write(machine, world, memo, values.as_slice(), numbers),
    }
}

/// Writes the numbers of the values of cases of sends in the world.
pub fn write_all(
    machine: &Machine<'_>,
    world: &World,
    memo: &mut Memo,
    sent: &[u32],
    values: &mut Vec<Vec<i64>>,
)
    requires world { IsWorld machine.now.base.spec world.now }
    requires knows { Knows machine.now.base world.now memo.old }
    requires sent { Each (λ k. k < length machine.now.send_cases) sent.now }
    requires room { HaveRoom machine.now (map (λ v. v.items) values.old.items) }
    ensures numbers { Each (AreOfCase machine.now world.now (map (λ v. v.items) values.new.items)) sent.now }
    ensures room { HaveRoom machine.now (map (λ v. v.items) values.new.items) }
    ensures knows { Knows machine.now.base world.now memo.new }
{
    for case in sent {
        write_case(machine, world, memo, *case, &mut values[*case as usize]);
    }
}
