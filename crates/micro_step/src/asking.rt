ghost use Rattle.std.specs.Prelude.{◌≡◌, ◌<◌, All, length, map};
ghost use Rattle.rsml_meaning.specs.Worlds.{IsWorld};
ghost use Rattle.rsml_ground.specs.Truths.{guard_truth, truths_in};
ghost use Rattle.macros.specs.Guards.{GuardBelow};
ghost use Rattle.macros.specs.Known.{Knows};
ghost use Rattle.and_or_tables.specs.Ground.{known};
ghost use Rattle.macros.specs.Asked.{AskedBelow, ColumnBelow, asked_truth, column_truth, columns_truth, literal_truth};

use elaborate::Machine;
use macros::{Asked, FastGuard, Literal, Memo};
use rsml_syntax::World;

/// The truth of a guard in the world.
#[inline(never)]
pub fn ask(machine: &Machine<'_>, world: &World, memo: &mut Memo, guard: &FastGuard) -> bool
    requires world { IsWorld machine.now.base.spec world.now }
    requires knows { Knows machine.now.base world.now memo.old }
    requires guard { GuardBelow (length machine.now.base.phrases) guard.now }
    ensures truth { result ≡ guard_truth (truths_in machine.now.base world.now) guard.now }
    ensures knows { Knows machine.now.base world.now memo.new }
{
    machine
        .macros()
        .ask_guard(machine.tree(), world, memo, guard)
}

/// The truth of a phrase in the world.
pub fn ask_phrase(machine: &Machine<'_>, world: &World, memo: &mut Memo, phrase: u32) -> bool
    requires world { IsWorld machine.now.base.spec world.now }
    requires knows { Knows machine.now.base world.now memo.old }
    requires phrase { phrase < length machine.now.base.phrases }
    ensures truth { result ≡ known (truths_in machine.now.base world.now) phrase }
    ensures knows { Knows machine.now.base world.now memo.new }
{
    if memo.knows(phrase) {
        return memo.truths().get(phrase);
    }
    machine.macros().ask(machine.tree(), world, memo, phrase)
}

/// Whether the phrase of a literal is as it is wanted in the world.
fn holds(machine: &Machine<'_>, world: &World, memo: &mut Memo, literal: Literal) -> bool
    requires world { IsWorld machine.now.base.spec world.now }
    requires knows { Knows machine.now.base world.now memo.old }
    requires phrase { literal.phrase < length machine.now.base.phrases }
    ensures truth { result ≡ literal_truth (truths_in machine.now.base world.now) literal }
    ensures knows { Knows machine.now.base world.now memo.new }
{
    let truth = ask_phrase(machine, world, memo, literal.phrase);
    if literal.wanted { truth } else { !truth }
}

/// Whether all literals of a column are true in the world. Those after the first that is not are not asked.
fn each_holds(machine: &Machine<'_>, world: &World, memo: &mut Memo, column: &[Literal]) -> bool
    requires world { IsWorld machine.now.base.spec world.now }
    requires knows { Knows machine.now.base world.now memo.old }
    requires phrases { ColumnBelow (length machine.now.base.phrases) column.now }
    ensures truth { result ≡ column_truth (truths_in machine.now.base world.now) column.now }
    ensures knows { Knows machine.now.base world.now memo.new }
{
    for literal in column {
        if !holds(machine, world, memo, *literal) {
            return false;
        }
    }
    true
}

/// Whether some column is true in the world. Those after the first true one are not asked.
#[inline(never)]
fn some_column_holds(
    machine: &Machine<'_>,
    world: &World,
    memo: &mut Memo,
    columns: &[Vec<Literal>],
) -> bool
    requires world { IsWorld machine.now.base.spec world.now }
    requires knows { Knows machine.now.base world.now memo.old }
    requires phrases { All (λ c. ColumnBelow (length machine.now.base.phrases) c.items) columns.now }
    ensures truth { result ≡ columns_truth (truths_in machine.now.base world.now) (map (λ c. c.items) columns.now) }
    ensures knows { Knows machine.now.base world.now memo.new }
{
    for column in columns {
        if each_holds(machine, world, memo, column.as_slice()) {
            return true;
        }
    }
    false
}

/// The truth of a guard in the world, by how it is asked.
#[inline(always)]
pub fn is_true(machine: &Machine<'_>, world: &World, memo: &mut Memo, asked: &Asked) -> bool
    requires world { IsWorld machine.now.base.spec world.now }
    requires knows { Knows machine.now.base world.now memo.old }
    requires phrases { AskedBelow (length machine.now.base.phrases) asked.now }
    ensures truth { result ≡ asked_truth (truths_in machine.now.base world.now) asked.now }
    ensures knows { Knows machine.now.base world.now memo.new }
{
    match asked {
        Asked::Single(literal) => holds(machine, world, memo, *literal),
        Asked::Columns(columns) => some_column_holds(machine, world, memo, columns.as_slice()),
        Asked::Masks(guard) => ask(machine, world, memo, guard),
    }
}
