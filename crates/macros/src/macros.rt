ghost use Rattle.std.specs.Prelude.{◌≡◌, ◌<◌, ℕ, All, IfOk, Some, find, length, slice_get};
ghost use Rattle.rsml_syntax.specs.declared.syntax.Phrase.{Phrase};
ghost use Rattle.rsml_syntax.specs.limits.Comparisons.{Indices};
ghost use Rattle.rsml_meaning.specs.Interfaces.{FunctionInstance, function_cases, definitions as instances};
ghost use Rattle.rsml_meaning.specs.Truth.{Gives, phrase, view};
ghost use Rattle.rsml_ground.specs.StandsFor.{PhraseIs};
ghost use Rattle.rsml_meaning.specs.Cells.{cells};
ghost use Rattle.rsml_meaning.specs.Worlds.{IsWorld};
ghost use Rattle.rsml_ground.specs.Grounded.{IsGrounded, IsShort};
ghost use Rattle.rsml_ground.specs.Rests.{DefinitionFits, IsDefined, IsSmall, OperandFits, RestsOn, SumFits};
ghost use Rattle.and_or_tables.specs.Ground.{known};
ghost use Rattle.macros.specs.Known.{IsKnown, Knows};
ghost use Rattle.macros.specs.Named.{Named};
ghost use Rattle.rsml_syntax.specs.rules.Relations as relations;
ghost use Rattle.rsml_ground.specs.declared.definitions.Definition.{Definition as DefinitionValue};
ghost use Rattle.macros.specs.Guards.{guards_of, phrases_of};
ghost use Rattle.rsml_ground.specs.Truths as spec;
ghost use Rattle.rsml_ground.specs.Truths.{truths_in, value_in};
ghost use Rattle.macros.specs.Tables.{with_parts};
ghost use Rattle.macros.specs.Sought.{is_sought};

use crate::activity::is_active;
use crate::cases::found_value;
use crate::fast::tables_of;
use crate::guards::FastGuard;
use crate::memo::Memo;
use crate::pairs::{Pair, pairs_of};
use crate::phrases::{each_true, some_true};
use crate::relation::compare;
use crate::sought::Sought;
use crate::sums::{sum_number, term_number};
use and_or_tables::Truths;
use phrase_builder::Lookup;
use rsml_ground::{
    Definition, GroundPhrase, GroundSum, Phrases, functions_mean_the_text, phrases_mean_the_text,
};
use rsml_syntax::{Checked, List, NoMemory, Relation, Spec, World};
use state_arrays::Names;
use state_tree::Tree;
use std::alloc::Global;
use std::marker::Model;

/// The phrases of a specification, and its macro and function instances.
pub struct Macros<'a> {
    spec: &'a Spec,
    phrases: Phrases,
    definitions: Vec<Definition>,
    tables: Vec<List<FastGuard>>,
    pairs: Vec<Option<Pair>>,
}

impl Drop for Macros<'_> {
    fn drop(self) {
        let Self {
            spec: _,
            phrases: _,
            definitions: _,
            tables: _,
            pairs: _,
        } = self;
    }
}

impl<'a> Model for Macros<'a> {
    ghost use Rattle.rsml_syntax.specs.contracts.syntax.Body as bodies;
    ghost use Rattle.rsml_ground.specs.Truths.{Grounded};
    ghost use Rattle.macros.specs.Tables.{AreMacros, with_parts};
    ghost use Rattle.std.specs.Coded.{codes};

    ghost Value = { Grounded };

    ghost coded = { Prim.hlevel (codes, bodies.the_row.coded) };

    ghost view = { λ m. with_parts m.spec.now m.phrases m.definitions.items };

    ghost invariant = { λ m. AreMacros
        (with_parts m.spec.now m.phrases m.definitions.items) m.tables.items m.pairs.items };
}

impl<'a> Macros<'a> {
    /// Phrases and definitions, prepared to be asked.
    pub fn new(
        alloc: Global,
        spec: &'a Spec,
        phrases: Phrases,
        definitions: Vec<Definition>,
    ) -> Result<Macros<'a>, NoMemory>
        requires { IsGrounded (with_parts spec.now phrases definitions.items) }
        ensures { IfOk result (λ m. m ≡ with_parts spec.now phrases definitions.items) }
    {
        let tables = tables_of(alloc, definitions.as_slice())?;
        let pairs = pairs_of(alloc, &phrases)?;
        Ok(Macros {
            spec,
            phrases,
            definitions,
            tables,
            pairs,
        })
    }

    /// The phrases of the macros and functions of a checked specification.
    pub fn build(
        alloc: Global,
        checked: &'a Checked,
        names: &Names<'a>,
    ) -> Result<Macros<'a>, NoMemory>
        requires same { names.now ≡ checked.now }
        requires short { IsShort checked.now }
        ensures { IfOk result (λ m. m.spec ≡ checked.now) }
    {
        let lookup = Lookup::new(alloc, checked, names)?;
        let built = phrase_builder::build(alloc, &lookup)?;
        Macros::new(alloc, checked.spec(), built.phrases, built.definitions)
    }

    /// The specification.
    pub fn spec(&self) -> &'a Spec
        ensures same { result.now ≡ self.now.spec }
        ensures standing { IsGrounded self.now }
    {
        let _ = &self.tables;
        self.spec
    }

    /// How many phrases there are.
    pub fn phrases(&self) -> u32
        ensures { result ≡ length self.now.phrases }
    {
        self.phrases.len()
    }

    /// The phrase of a number.
    pub fn phrase(&self, number: u32) -> &GroundPhrase
        requires { number < length self.now.phrases }
        ensures is { slice_get self.now.phrases number ≡ Some result.now }
        ensures rests { RestsOn self.now.definitions (length (cells self.now.spec)) number result.now }
    {
        let _ = &self.spec;
        self.phrases.get(number)
    }

    /// How many macro and function instances there are.
    pub fn definitions(&self) -> usize
        ensures { result ≡ length self.now.definitions }
    {
        self.definitions.len()
    }

    /// The macro or function instance of a number.
    pub fn definition(&self, number: u32) -> &Definition
        requires { number < length self.now.definitions }
        ensures is { slice_get self.now.definitions number ≡ Some result.now }
        ensures fits { DefinitionFits (length (cells self.now.spec))
            (length self.now.phrases) result.now }
    {
        let _ = &self.spec;
        &self.definitions[number as usize]
    }

    /// The guards of a definition.
    pub(crate) fn guards(&self, number: u32) -> &[FastGuard]
        requires { number < length self.now.definitions }
        ensures is { (d : DefinitionValue) → slice_get self.now.definitions number ≡ Some d
            → result.now ≡ guards_of d }
        ensures below { All (λ g. All (λ k. k < length self.now.phrases) (phrases_of g)) result.now }
    {
        let _ = &self.spec;
        self.tables[number as usize].as_slice()
    }

    /// What the cells hold.
    fn cells<'b>(&self, world: &'b World) -> &'b [i64]
        requires { IsWorld self.now.spec world.now }
        ensures is { result.now ≡ world.now.cells }
        ensures many { length result.now ≡ length (cells self.now.spec) }
        ensures small { All IsSmall result.now }
    {
        let _ = &self.spec;
        world.cells.as_slice()
    }

    /// The truth of a phrase in a world, by the truths of the phrases on which it rests.
    pub(crate) fn phrase_truth(
        &self,
        tree: &Tree<'_>,
        world: &World,
        truths: &Truths,
        phrase: &GroundPhrase,
    ) -> bool
        requires tree { tree.now ≡ self.now.spec }
        requires world { IsWorld self.now.spec world.now }
        requires rests { RestsOn self.now.definitions (length (cells self.now.spec))
            (length truths.now) phrase.now }
        ensures { result ≡ spec.phrase_truth self.now world.now truths.now phrase.now }
    {
        match phrase {
            GroundPhrase::In(node) => is_active(tree, world, *node),
            GroundPhrase::Macro(number) => self.macro_truth(truths, *number),
            GroundPhrase::Any(numbers) => some_true(truths, numbers.as_slice()),
            GroundPhrase::Every(numbers) => each_true(truths, numbers.as_slice()),
            GroundPhrase::Compare {
                left,
                relation,
                right,
            } => self.compared(world, left, *relation, right),
            GroundPhrase::Function {
                function,
                relation,
                constant,
            } => {
                let sought = Sought::Compared {
                    relation: *relation,
                    constant: *constant,
                };
                self.function_value(world, truths, *function, sought)
                    .is_some()
            }
        }
    }

    /// The truth of the phrase of a number in a world, by the truths of the phrases on which it rests. A comparison of one term
    /// with one term is read from where all such lie one after another.
    fn number_truth(
        &self,
        tree: &Tree<'_>,
        world: &World,
        truths: &Truths,
        number: u32,
        phrase: &GroundPhrase,
    ) -> bool
        requires tree { tree.now ≡ self.now.spec }
        requires world { IsWorld self.now.spec world.now }
        requires phrase { slice_get self.now.phrases number ≡ Some phrase.now }
        requires rests { RestsOn self.now.definitions (length (cells self.now.spec))
            (length truths.now) phrase.now }
        ensures { result ≡ spec.phrase_truth self.now world.now truths.now phrase.now }
    {
        match self.pairs[number as usize] {
            Some(pair) => self.pair_truth(world, pair),
            None => self.phrase_truth(tree, world, truths, phrase),
        }
    }

    /// Whether the relation holds between two terms.
    fn pair_truth(&self, world: &World, pair: Pair) -> bool
        requires world { IsWorld self.now.spec world.now }
        requires left { OperandFits (length (cells self.now.spec)) pair.left.operand }
        requires right { OperandFits (length (cells self.now.spec)) pair.right.operand }
        ensures { result ≡ relations.compare pair.relation
            (spec.term_number world.now.cells pair.left) (spec.term_number world.now.cells pair.right) }
    {
        let cells = self.cells(world);
        compare(
            pair.relation,
            term_number(cells, pair.left),
            term_number(cells, pair.right),
        )
    }

    /// The truth of the phrase of a number in a world in which all that it names is known.
    pub(crate) fn truth_by(
        &self,
        tree: &Tree<'_>,
        world: &World,
        memo: &Memo,
        number: u32,
        phrase: &GroundPhrase,
    ) -> bool
        requires tree { tree.now ≡ self.now.spec }
        requires world { IsWorld self.now.spec world.now }
        requires knows { Knows self.now world.now memo.now }
        requires phrase { slice_get self.now.phrases number ≡ Some phrase.now }
        requires rests { RestsOn self.now.definitions (length (cells self.now.spec)) number phrase.now }
        requires named { Named (IsKnown memo.now) self.now.definitions phrase.now }
        ensures { result ≡ known (truths_in self.now world.now) number }
    {
        let _ = &self.spec;
        self.number_truth(tree, world, memo.truths(), number, phrase)
    }

    /// Whether the relation holds between two sums in a world.
    pub fn compared(
        &self,
        world: &World,
        left: &GroundSum,
        relation: Relation,
        right: &GroundSum,
    ) -> bool
        requires world { IsWorld self.now.spec world.now }
        requires left { SumFits (length (cells self.now.spec)) left.now }
        requires right { SumFits (length (cells self.now.spec)) right.now }
        ensures { result ≡ relations.compare relation
            (spec.sum_number world.now.cells left.now) (spec.sum_number world.now.cells right.now) }
    {
        compare(
            relation,
            self.number(world, left),
            self.number(world, right),
        )
    }

    /// The number of a sum in a world.
    pub fn number(&self, world: &World, sum: &GroundSum) -> i64
        requires world { IsWorld self.now.spec world.now }
        requires fits { SumFits (length (cells self.now.spec)) sum.now }
        ensures { result ≡ spec.sum_number world.now.cells sum.now }
    {
        sum_number(self.cells(world), sum)
    }

    /// The truth of a macro's table. A function has none.
    fn macro_truth(&self, truths: &Truths, number: u32) -> bool
        requires { IsDefined self.now.definitions (length (cells self.now.spec)) (length truths.now) number }
        ensures { result ≡ spec.macro_truth truths.now (slice_get self.now.definitions number) }
    {
        match self.definition(number) {
            Definition::Macro(_) => self.guards(number)[0].truth(truths),
            Definition::Function(_) => false,
        }
    }

    /// The first value of a function that is sought, of its cases with a true guard. A macro has none.
    fn function_value(
        &self,
        world: &World,
        truths: &Truths,
        number: u32,
        sought: Sought,
    ) -> Option<i64>
        requires world { IsWorld self.now.spec world.now }
        requires defined { IsDefined self.now.definitions
            (length (cells self.now.spec)) (length truths.now) number }
        ensures { result ≡ find (is_sought sought)
            (spec.function_values world.now.cells truths.now (slice_get self.now.definitions number)) }
    {
        match self.definition(number) {
            Definition::Macro(_) => None,
            Definition::Function(cases) => found_value(
                self.cells(world),
                truths,
                cases.as_slice(),
                self.guards(number),
                sought,
            ),
        }
    }

    /// Gives each phrase its truth in the world. It takes no memory.
    pub fn fill(&self, tree: &Tree<'_>, world: &World, truths: &mut Truths)
        requires tree { tree.now ≡ self.now.spec }
        requires world { IsWorld self.now.spec world.now }
        requires room { length truths.old ≡ length self.now.phrases }
        ensures truths { truths.new ≡ truths_in self.now world.now }
        ensures means { (r : Indices) (p : Phrase) (k : ℕ) → PhraseIs self.now.phrases self.now.spec r p k
            → known truths.new k ≡ phrase (view self.now.spec world.now) r p }
    {
        phrases_mean_the_text();
        let _ = &self.spec;
        for number in 0..self.phrases() {
            let truth = self.number_truth(tree, world, truths, number, self.phrase(number));
            truths.set(number, truth);
        }
    }

    /// The value of a function in a world, of the truths of its phrases: that of the first case with a true guard, 0 where no
    /// guard is true.
    pub fn value(&self, function: u32, truths: &Truths, world: &World) -> i64
        requires function { function < length self.now.definitions }
        requires world { IsWorld self.now.spec world.now }
        requires truths { truths.now ≡ truths_in self.now world.now }
        ensures value { result ≡ value_in self.now world.now function }
        ensures allowed { (f : FunctionInstance)
            → slice_get (instances self.now.spec) function ≡ Some (function_cases f)
            → Gives (view self.now.spec world.now) f.function result }
    {
        functions_mean_the_text();
        let _ = &self.tables;
        self.function_value(world, truths, function, Sought::Any)
            .unwrap_or(0)
    }
}
