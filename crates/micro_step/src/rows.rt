ghost use Rattle.std.specs.Prelude.{◌≡◌, ◌+◌, ◌*◌, ◌^◌, ◌<◌, ◌≤◌, if◌then◌else◌, All, length, map};
ghost use Rattle.rsml_meaning.specs.Worlds.{IsWorld};
ghost use Rattle.and_or_tables.specs.Ground.{known};
ghost use Rattle.rsml_ground.specs.Rests.{GuardFits};
ghost use Rattle.rsml_ground.specs.Truths.{truths_in};
ghost use Rattle.macros.specs.Known.{Knows};
ghost use Rattle.ground_groups.specs.declared.group.Member.TheVariants as members;
ghost use Rattle.micro_step.specs.Numbers.{ground_rows};
ghost use Rattle.micro_step.specs.Rows as spec;
ghost use Rattle.micro_step.specs.Rows.{bits_of};

use crate::asking::ask_phrase;
use and_or_tables::GroundRow;
use elaborate::Machine;
use ground_groups::Member;
use macros::Memo;
use rsml_ground::{Definition, GroundGuard};
use rsml_syntax::World;

/// The bits of a word, each one place higher, above a new lowest one.
fn with_lowest(word: u64, bit: bool) -> u64
    requires { word < 2 ^ 63 }
    ensures { result ≡ (if bit then 1 else 0) + 2 * word }
{
    2 * word + u64::from(bit)
}

/// The truths of rows in the world as bits: bit k, from 0, is that of row k + 1.
fn row_bits(machine: &Machine<'_>, world: &World, memo: &mut Memo, rows: &[GroundRow]) -> u64
    requires world { IsWorld machine.now.base.spec world.now }
    requires knows { Knows machine.now.base world.now memo.old }
    requires few { length rows.now ≤ 64 }
    requires phrases { All (λ row. row.phrase < length machine.now.base.phrases) rows.now }
    ensures rows { result ≡ bits_of (map (λ row. known (truths_in machine.now.base world.now) row.phrase) rows.now) }
    ensures knows { Knows machine.now.base world.now memo.new }
{
    let mut bits = 0;
    let mut k = rows.len();
    while k > 0 {
        k -= 1;
        let truth = ask_phrase(machine, world, memo, rows[k].phrase);
        bits = with_lowest(bits, truth);
    }
    bits
}

/// The same of the rows of a guard's table. A guard `always` has none.
fn guard_rows(machine: &Machine<'_>, world: &World, memo: &mut Memo, guard: &GroundGuard) -> u64
    requires world { IsWorld machine.now.base.spec world.now }
    requires knows { Knows machine.now.base world.now memo.old }
    requires fits { GuardFits (length machine.now.base.phrases) guard.now }
    ensures rows { result ≡ bits_of (ground_rows (truths_in machine.now.base world.now) guard.now) }
    ensures knows { Knows machine.now.base world.now memo.new }
{
    match guard {
        GroundGuard::Always => 0,
        GroundGuard::Table(table) => row_bits(machine, world, memo, table.rows.as_slice()),
    }
}

/// The same of the transition of a number, if there is one.
fn transition_rows(machine: &Machine<'_>, world: &World, memo: &mut Memo, number: u32) -> u64
    requires world { IsWorld machine.now.base.spec world.now }
    requires knows { Knows machine.now.base world.now memo.old }
    ensures rows { result ≡ bits_of (spec.member_rows machine.now.base.spec world.now (members.Transition number)) }
    ensures knows { Knows machine.now.base world.now memo.new }
{
    machine.law();
    if number >= machine.transitions() {
        return 0;
    }
    guard_rows(machine, world, memo, machine.transition(number).guard())
}

/// The same of the case of a send of a number, if there is one.
fn send_case_rows(machine: &Machine<'_>, world: &World, memo: &mut Memo, number: u32) -> u64
    requires world { IsWorld machine.now.base.spec world.now }
    requires knows { Knows machine.now.base world.now memo.old }
    ensures rows { result ≡ bits_of (spec.member_rows machine.now.base.spec world.now (members.SendCase number)) }
    ensures knows { Knows machine.now.base world.now memo.new }
{
    machine.law();
    if number >= machine.send_cases() {
        return 0;
    }
    guard_rows(machine, world, memo, machine.send_case(number).guard())
}

/// The same of the case at a place of a function instance, if there is one.
fn function_case_rows(
    machine: &Machine<'_>,
    world: &World,
    memo: &mut Memo,
    function: u32,
    place: u32,
) -> u64
    requires world { IsWorld machine.now.base.spec world.now }
    requires knows { Knows machine.now.base world.now memo.old }
    ensures rows { result ≡ bits_of
        (spec.member_rows machine.now.base.spec world.now (members.FunctionCase function place)) }
    ensures knows { Knows machine.now.base world.now memo.new }
{
    machine.law();
    let macros = machine.macros();
    if function as usize >= macros.definitions() {
        return 0;
    }
    let Definition::Function(cases) = macros.definition(function) else {
        return 0;
    };
    match cases.as_slice().get(place as usize) {
        Some(case) => guard_rows(machine, world, memo, &case.guard),
        None => 0,
    }
}

/// The same of a member, if it is there.
pub fn member_rows(machine: &Machine<'_>, world: &World, memo: &mut Memo, member: Member) -> u64
    requires world { IsWorld machine.now.base.spec world.now }
    requires knows { Knows machine.now.base world.now memo.old }
    ensures rows { result ≡ bits_of (spec.member_rows machine.now.base.spec world.now member) }
    ensures knows { Knows machine.now.base world.now memo.new }
{
    match member {
        Member::Transition(number) => transition_rows(machine, world, memo, number),
        Member::SendCase(number) => send_case_rows(machine, world, memo, number),
        Member::FunctionCase { function, place } => {
            function_case_rows(machine, world, memo, function, place)
        }
    }
}
