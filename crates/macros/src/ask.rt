ghost use Rattle.std.specs.Prelude.{◌≡◌, ◌<◌, ◌≤◌, All, Some, find, if◌then◌else◌, length, slice_get};
ghost use Rattle.std.specs.List.{list_any, list_all};
ghost use Rattle.and_or_tables.specs.Ground.{known};
ghost use Rattle.rsml_meaning.specs.Cells.{cells};
ghost use Rattle.rsml_meaning.specs.Worlds.{IsWorld};
ghost use Rattle.rsml_ground.specs.Rests.{RestsOn};
ghost use Rattle.rsml_ground.specs.Truths.{function_values, guard_truth, macro_truth, truths_in, value_in};
ghost use Rattle.macros.specs.Guards.{GuardBelow};
ghost use Rattle.macros.specs.Known.{AreKnown, IsKnown, Knows, StillKnown};
ghost use Rattle.macros.specs.Sought.{is_sought};

use crate::guards::FastGuard;
use crate::macros::Macros;
use crate::memo::Memo;
use crate::sought::Sought;
use rsml_ground::{Definition, GroundPhrase};
use rsml_syntax::World;
use state_tree::Tree;

/// How many phrases are asked inside one another before all lower ones are worked out in order.
const DEPTH: u32 = 64;

impl<'a> Macros<'a> {
    /// The truth of one phrase. Where it is not known, it is worked out with what it rests on, all of which is known from then
    /// on. It takes no memory, and its stack is bounded: 64 phrases deep, all lower phrases are worked out in order.
    pub fn ask(&self, tree: &Tree<'_>, world: &World, memo: &mut Memo, phrase: u32) -> bool
        requires tree { tree.now ≡ self.now.spec }
        requires world { IsWorld self.now.spec world.now }
        requires knows { Knows self.now world.now memo.old }
        requires phrase { phrase < length self.now.phrases }
        ensures truth { result ≡ known (truths_in self.now world.now) phrase }
        ensures knows { Knows self.now world.now memo.new }
        ensures kept { StillKnown memo.old memo.new }
        ensures learned { IsKnown memo.new phrase }
    {
        self.ask_within(tree, world, memo, phrase, DEPTH)
    }

    /// The same, where so many more phrases may be asked inside one another.
    #[cycle(ask)]
    fn ask_within(
        &self,
        tree: &Tree<'_>,
        world: &World,
        memo: &mut Memo,
        phrase: u32,
        depth: u32,
    ) -> bool
        requires tree { tree.now ≡ self.now.spec }
        requires world { IsWorld self.now.spec world.now }
        requires knows { Knows self.now world.now memo.old }
        requires phrase { phrase < length self.now.phrases }
        ensures truth { result ≡ known (truths_in self.now world.now) phrase }
        ensures knows { Knows self.now world.now memo.new }
        ensures kept { StillKnown memo.old memo.new }
        ensures learned { IsKnown memo.new phrase }
    {
        if memo.knows(phrase) {
            return memo.truths().get(phrase);
        }
        let truth = self.ask_phrase(tree, world, memo, phrase, self.phrase(phrase), depth);
        memo.learn(phrase, truth);
        truth
    }

    /// The truth of the phrase of a number. What it names is asked no further than its truth needs, or all lower phrases are
    /// worked out where no more phrases may be asked inside it.
    #[cycle(ask)]
    fn ask_phrase(
        &self,
        tree: &Tree<'_>,
        world: &World,
        memo: &mut Memo,
        number: u32,
        phrase: &GroundPhrase,
        depth: u32,
    ) -> bool
        requires tree { tree.now ≡ self.now.spec }
        requires world { IsWorld self.now.spec world.now }
        requires knows { Knows self.now world.now memo.old }
        requires phrase { slice_get self.now.phrases number ≡ Some phrase.now }
        requires rests { RestsOn self.now.definitions (length (cells self.now.spec)) number phrase.now }
        ensures truth { result ≡ known (truths_in self.now world.now) number }
        ensures knows { Knows self.now world.now memo.new }
        ensures kept { StillKnown memo.old memo.new }
    {
        let _ = self.spec();
        if depth == 0 {
            self.ask_below(tree, world, memo, number);
            return self.truth_by(tree, world, memo, number, phrase);
        }
        match phrase {
            GroundPhrase::In(_) | GroundPhrase::Compare { .. } => {
                self.truth_by(tree, world, memo, number, phrase)
            }
            GroundPhrase::Any(numbers) => {
                self.ask_settled(tree, world, memo, numbers.as_slice(), true, depth - 1)
            }
            GroundPhrase::Every(numbers) => {
                self.ask_settled(tree, world, memo, numbers.as_slice(), false, depth - 1)
            }
            GroundPhrase::Macro(table) => self.ask_macro(tree, world, memo, *table, depth - 1),
            GroundPhrase::Function {
                function,
                relation,
                constant,
            } => {
                let sought = Sought::Compared {
                    relation: *relation,
                    constant: *constant,
                };
                self.ask_function(tree, world, memo, *function, sought, depth - 1)
                    .is_some()
            }
        }
    }

    /// What phrases come to that the first with this truth settles: this truth, or the other where none has it. Those after the
    /// first are not asked.
    #[cycle(ask)]
    fn ask_settled(
        &self,
        tree: &Tree<'_>,
        world: &World,
        memo: &mut Memo,
        numbers: &[u32],
        settles: bool,
        depth: u32,
    ) -> bool
        requires tree { tree.now ≡ self.now.spec }
        requires world { IsWorld self.now.spec world.now }
        requires knows { Knows self.now world.now memo.old }
        requires numbers { All (λ k. k < length self.now.phrases) numbers.now }
        ensures truth { result ≡ (if settles then list_any (known (truths_in self.now world.now)) numbers.now
            else list_all (known (truths_in self.now world.now)) numbers.now) }
        ensures knows { Knows self.now world.now memo.new }
        ensures kept { StillKnown memo.old memo.new }
    {
        for number in numbers {
            if self.ask_within(tree, world, memo, *number, depth) == settles {
                return settles;
            }
        }
        !settles
    }

    /// The truth of a macro's table. A function has none.
    #[cycle(ask)]
    fn ask_macro(
        &self,
        tree: &Tree<'_>,
        world: &World,
        memo: &mut Memo,
        number: u32,
        depth: u32,
    ) -> bool
        requires tree { tree.now ≡ self.now.spec }
        requires world { IsWorld self.now.spec world.now }
        requires knows { Knows self.now world.now memo.old }
        requires number { number < length self.now.definitions }
        ensures truth { result ≡ macro_truth (truths_in self.now world.now) (slice_get self.now.definitions number) }
        ensures knows { Knows self.now world.now memo.new }
        ensures kept { StillKnown memo.old memo.new }
    {
        match self.definition(number) {
            Definition::Macro(_) => {
                self.ask_guard_within(tree, world, memo, &self.guards(number)[0], depth)
            }
            Definition::Function(_) => false,
        }
    }

    /// The first value of a function that is sought, of its cases with a true guard. Cases after it are not asked. A macro has none.
    #[cycle(ask)]
    fn ask_function(
        &self,
        tree: &Tree<'_>,
        world: &World,
        memo: &mut Memo,
        function: u32,
        sought: Sought,
        depth: u32,
    ) -> Option<i64>
        requires tree { tree.now ≡ self.now.spec }
        requires world { IsWorld self.now.spec world.now }
        requires knows { Knows self.now world.now memo.old }
        requires function { function < length self.now.definitions }
        ensures value { result ≡ find (is_sought sought)
            (function_values world.now.cells (truths_in self.now world.now) (slice_get self.now.definitions function)) }
        ensures knows { Knows self.now world.now memo.new }
        ensures kept { StillKnown memo.old memo.new }
    {
        let Definition::Function(list) = self.definition(function) else {
            return None;
        };
        let cases = list.as_slice();
        let guards = self.guards(function);
        for place in 0..cases.len() {
            if self.ask_guard_within(tree, world, memo, &guards[place], depth) {
                let value = self.number(world, &cases[place].value);
                if sought.takes(value) {
                    return Some(value);
                }
            }
        }
        None
    }

    /// The truth of a guard.
    #[cycle(ask)]
    fn ask_guard_within(
        &self,
        tree: &Tree<'_>,
        world: &World,
        memo: &mut Memo,
        guard: &FastGuard,
        depth: u32,
    ) -> bool
        requires tree { tree.now ≡ self.now.spec }
        requires world { IsWorld self.now.spec world.now }
        requires knows { Knows self.now world.now memo.old }
        requires guard { GuardBelow (length self.now.phrases) guard.now }
        ensures truth { result ≡ guard_truth (truths_in self.now world.now) guard.now }
        ensures knows { Knows self.now world.now memo.new }
        ensures kept { StillKnown memo.old memo.new }
    {
        self.ask_each(tree, world, memo, guard.phrases(), depth);
        guard.truth(memo.truths())
    }

    /// Makes the truths known of all phrases below a number, one after the other.
    fn ask_below(&self, tree: &Tree<'_>, world: &World, memo: &mut Memo, below: u32)
        requires tree { tree.now ≡ self.now.spec }
        requires world { IsWorld self.now.spec world.now }
        requires knows { Knows self.now world.now memo.old }
        requires below { below ≤ length self.now.phrases }
        ensures knows { Knows self.now world.now memo.new }
        ensures kept { StillKnown memo.old memo.new }
        ensures learned { AreKnown memo.new below }
    {
        for number in 0..below {
            self.ask_next(tree, world, memo, number);
        }
    }

    /// Makes the truth known of a phrase with all below it known.
    fn ask_next(&self, tree: &Tree<'_>, world: &World, memo: &mut Memo, number: u32)
        requires tree { tree.now ≡ self.now.spec }
        requires world { IsWorld self.now.spec world.now }
        requires knows { Knows self.now world.now memo.old }
        requires number { number < length self.now.phrases }
        requires below { AreKnown memo.old number }
        ensures knows { Knows self.now world.now memo.new }
        ensures kept { StillKnown memo.old memo.new }
        ensures learned { IsKnown memo.new number }
    {
        if memo.knows(number) {
            return;
        }
        let truth = self.truth_by(tree, world, memo, number, self.phrase(number));
        memo.learn(number, truth);
    }

    /// Makes the truths of phrases known.
    #[cycle(ask)]
    fn ask_each(&self, tree: &Tree<'_>, world: &World, memo: &mut Memo, numbers: &[u32], depth: u32)
        requires tree { tree.now ≡ self.now.spec }
        requires world { IsWorld self.now.spec world.now }
        requires knows { Knows self.now world.now memo.old }
        requires numbers { All (λ k. k < length self.now.phrases) numbers.now }
        ensures knows { Knows self.now world.now memo.new }
        ensures kept { StillKnown memo.old memo.new }
        ensures learned { All (IsKnown memo.new) numbers.now }
    {
        for number in numbers {
            self.ask_within(tree, world, memo, *number, depth);
        }
    }

    /// The truth of a guard. What its phrases rest on is worked out where it is not known, and is known from then on. It takes
    /// no memory.
    pub fn ask_guard(
        &self,
        tree: &Tree<'_>,
        world: &World,
        memo: &mut Memo,
        guard: &FastGuard,
    ) -> bool
        requires tree { tree.now ≡ self.now.spec }
        requires world { IsWorld self.now.spec world.now }
        requires knows { Knows self.now world.now memo.old }
        requires guard { GuardBelow (length self.now.phrases) guard.now }
        ensures truth { result ≡ guard_truth (truths_in self.now world.now) guard.now }
        ensures knows { Knows self.now world.now memo.new }
        ensures kept { StillKnown memo.old memo.new }
    {
        self.ask_guard_within(tree, world, memo, guard, DEPTH)
    }

    /// The value of the first case of a function whose guard is true, 0 where none is. What its guards rest on is worked out
    /// where it is not known, and is known from then on. It takes no memory.
    pub fn ask_value(&self, tree: &Tree<'_>, world: &World, memo: &mut Memo, function: u32) -> i64
        requires tree { tree.now ≡ self.now.spec }
        requires world { IsWorld self.now.spec world.now }
        requires knows { Knows self.now world.now memo.old }
        requires function { function < length self.now.definitions }
        ensures value { result ≡ value_in self.now world.now function }
        ensures knows { Knows self.now world.now memo.new }
        ensures kept { StillKnown memo.old memo.new }
    {
        self.ask_function(tree, world, memo, function, Sought::Any, DEPTH)
            .unwrap_or(0)
    }
}
