ghost use Rattle.std.specs.Prelude.{◌≡◌, ◌<◌, All, length, map};
ghost use Rattle.rsml_meaning.specs.Worlds.{IsWorld};
ghost use Rattle.macros.specs.Known.{Knows};
ghost use Rattle.macros.specs.StatePhrases.{IsStatePhrase, some_chosen};

use elaborate::Machine;
use macros::{Memo, StatePhrase};
use rsml_ground::{Choice, are_chosen};
use rsml_syntax::World;

/// Whether the component of each choice of one of these lists has its child.
fn is_some_chosen(chosen: &[u8], ways: &[Vec<Choice>]) -> bool
    requires { All (λ way. All (λ c. c.component < length chosen.now) way.items) ways.now }
    ensures { result ≡ some_chosen chosen.now (map (λ way. way.items) ways.now) }
{
    for way in ways {
        if are_chosen(chosen, way.as_slice()) {
            return true;
        }
    }
    false
}

/// Makes the truth of a phrase about states alone known.
fn learn(machine: &Machine<'_>, world: &World, memo: &mut Memo, one: &StatePhrase)
    requires world { IsWorld machine.now.base.spec world.now }
    requires knows { Knows machine.now.base world.now memo.old }
    requires one { IsStatePhrase machine.now.base one.now }
    ensures { Knows machine.now.base world.now memo.new }
{
    let _ = machine.macros();
    let truth = is_some_chosen(world.choices.as_slice(), one.ways.as_slice());
    memo.learn(one.phrase, truth);
}

/// Makes the truths of phrases about states alone known.
pub fn learn_all(machine: &Machine<'_>, world: &World, memo: &mut Memo, phrases: &[StatePhrase])
    requires world { IsWorld machine.now.base.spec world.now }
    requires knows { Knows machine.now.base world.now memo.old }
    requires phrases { All (IsStatePhrase machine.now.base) phrases.now }
    ensures { Knows machine.now.base world.now memo.new }
{
    for one in phrases {
        learn(machine, world, memo, one);
    }
}
