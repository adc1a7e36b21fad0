ghost use Rattle.std.specs.Prelude.{◌≡◌, ℕ, false, IfOk, Some, map};
ghost use Rattle.std.specs.Option.{option_copied, option_map_or};
ghost use Rattle.rsml_syntax.specs.limits.Checked.{IsChecked};
ghost use Rattle.rsml_syntax.specs.limits.Comparisons.{index_number};
ghost use Rattle.rsml_syntax.specs.rules.Globals as spec;
ghost use Rattle.rsml_syntax.specs.rules.Uses as uses;
ghost use Rattle.rsml_meaning.specs.Words.{Each};
ghost use Rattle.rsml_meaning.specs.Instances.{globals_of};
ghost use Rattle.rsml_meaning.specs.Truth.{instance};
ghost use Rattle.state_arrays.specs.Places as places;
ghost use Rattle.rsml_ground.specs.Grounded.{IsShort};
ghost use Rattle.rsml_ground.specs.Rests.{IsSmall};
ghost use Rattle.rsml_ground.specs.StandsFor.{IsNode};
ghost use Rattle.rsml_ground.specs.Scoped.{IndexFits, PathIsScoped};

use crate::here::Here;
use rsml_names::{Globals, Known};
use rsml_syntax::{Amount, Checked, Decl, Index, List, Mention, NoMemory, Path, Spec, Step, Text};
use state_arrays::Names;
use std::alloc::Global;
use std::marker::Model;

/// What the names in phrases stand for.
#[derive(Drop)]
pub struct Lookup<'a, 'n> {
    names: &'n Names<'a>,
    globals: Globals<'a>,
}

impl<'a, 'n> Model for Lookup<'a, 'n> {
    ghost use Rattle.std.specs.Prelude.{◌≡◌};
    ghost use Rattle.std.specs.Coded.{codes};
    ghost use Rattle.rsml_syntax.specs.declared.syntax.Spec.{Spec};
    ghost use Rattle.rsml_syntax.specs.contracts.syntax.Body as bodies;
    ghost use Rattle.rsml_syntax.specs.limits.Checked.{IsChecked};
    ghost use Rattle.rsml_meaning.specs.Instances.{globals_of};
    ghost use Rattle.rsml_ground.specs.Grounded.{IsShort};

    ghost Value = { Spec };

    ghost coded = { Prim.hlevel (codes, bodies.the_row.coded) };

    ghost view = { λ l. l.names.now };

    ghost invariant = { λ l. record {
      globals : l.globals ≡ globals_of l.names.now;
      checked : IsChecked l.names.now;
      short : IsShort l.names.now;
    } };
}

impl<'a, 'n> Lookup<'a, 'n> {
    /// The names of a checked specification, beside the numbers of its instances.
    pub fn new(
        alloc: Global,
        checked: &'a Checked,
        names: &'n Names<'a>,
    ) -> Result<Lookup<'a, 'n>, NoMemory>
        requires same { names.now ≡ checked.now }
        requires short { IsShort checked.now }
        ensures { IfOk result (λ lookup. lookup ≡ checked.now) }
    {
        let globals = Globals::new(alloc, checked.spec().decls.as_slice())?;
        Ok(Lookup { names, globals })
    }

    /// The specification itself.
    pub fn spec(&self) -> &'a Spec
        ensures same { result.now ≡ self.now }
        ensures checked { IsChecked self.now }
        ensures short { IsShort self.now }
    {
        let _ = &self.globals;
        self.names.spec()
    }

    /// The numbers of its instances.
    pub fn names(&self) -> &'n Names<'a>
        ensures { result.now ≡ self.now }
    {
        self.names
    }

    /// How many there are of what is declared with this size.
    pub fn many(&self, size: Option<&Amount>) -> u64
        ensures { result ≡ spec.many (globals_of self.now) (option_copied size.entry) }
    {
        self.globals.many(size)
    }

    /// Whether a name is that of an input.
    pub fn is_input(&self, name: &Text) -> bool
        ensures { result ≡ option_map_or uses.is_input (spec.meaning (globals_of self.now) name.now) false }
    {
        match self.globals.meaning(name) {
            Some(known) => is_input(known),
            None => false,
        }
    }

    /// The number of a constant, or of a value of an enumeration.
    pub fn number(&self, name: &Text) -> i64
        requires { IsSmall (spec.number (globals_of self.now) name.now) }
        ensures { result ≡ spec.number (globals_of self.now) name.now }
    {
        match self.globals.meaning(name) {
            Some(known) => number_of(known),
            None => 0,
        }
    }

    /// The index of a mention, 0 where it has none.
    pub fn index(&self, here: &Here<'_>, mention: &Mention) -> u8
        requires { IndexFits self.now here.now mention.now }
        ensures { result ≡ index_number (globals_of self.now) here.now mention.now.index }
    {
        self.index_number(here, mention.index.as_ref()) as u8
    }

    // The number of an index, 0 where there is none.
    fn index_number(&self, here: &Here<'_>, index: Option<&Index>) -> u64
        ensures { result ≡ index_number (globals_of self.now) here.now (option_copied index.entry) }
    {
        match index {
            None => 0,
            Some(Index::Number(number)) => u64::from(*number),
            Some(Index::Name(name)) => self.named(here, name),
            Some(Index::This) => u64::from(here.this),
        }
    }

    // The number of a name that stands as an index.
    fn named(&self, here: &Here<'_>, name: &Text) -> u64
        ensures { result ≡ index_number (globals_of self.now) here.now (Some (Index.Name name.now)) }
    {
        match here.value(name) {
            Some(value) => u64::from(value),
            None => self
                .globals
                .constant(name)
                .map_or(0, |number| number.unsigned_abs()),
        }
    }

    /// The place of the cell of an input that is mentioned.
    pub fn cell(&self, here: &Here<'_>, mention: &Mention) -> u32
        requires index { IndexFits self.now here.now mention.now }
        requires there { (k : ℕ) × (places.cell_place self.now (instance (globals_of self.now) here.now mention.now) ≡ Some k) }
        ensures { places.cell_place self.now (instance (globals_of self.now) here.now mention.now) ≡ Some result }
    {
        let index = self.index(here, mention);
        self.names.cell_of(mention.name.bytes(), index).unwrap()
    }

    /// The place of the previous cell of an input that is mentioned.
    pub fn previous(&self, here: &Here<'_>, mention: &Mention) -> u32
        requires index { IndexFits self.now here.now mention.now }
        requires there { (k : ℕ) × (places.previous_place self.now (instance (globals_of self.now) here.now mention.now) ≡ Some k) }
        ensures { places.previous_place self.now (instance (globals_of self.now) here.now mention.now) ≡ Some result }
    {
        let index = self.index(here, mention);
        self.names.previous_of(mention.name.bytes(), index).unwrap()
    }

    /// The number of a macro or function instance that is mentioned.
    pub fn definition(&self, here: &Here<'_>, mention: &Mention) -> u32
        requires index { IndexFits self.now here.now mention.now }
        requires there { (k : ℕ) × (places.definition_place self.now (instance (globals_of self.now) here.now mention.now) ≡ Some k) }
        ensures { places.definition_place self.now (instance (globals_of self.now) here.now mention.now) ≡ Some result }
    {
        let index = self.index(here, mention);
        self.names
            .definition_of(mention.name.bytes(), index)
            .unwrap()
    }

    /// The number of the state of a path.
    pub fn node(&self, alloc: Global, here: &Here<'_>, path: &[Mention]) -> Result<u32, NoMemory>
        requires { PathIsScoped self.now here.now path.now }
        ensures { IfOk result (λ node. IsNode self.now here.now path.now node) }
    {
        let path = Path {
            steps: self.steps(alloc, here, path)?,
        };
        Ok(self.names.node_of_path(&path).unwrap())
    }

    // The steps that are mentioned, with their indices.
    fn steps(
        &self,
        alloc: Global,
        here: &Here<'_>,
        path: &[Mention],
    ) -> Result<List<Step>, NoMemory>
        requires { Each (IndexFits self.now here.now) path.now }
        ensures { IfOk result (λ steps. steps ≡ map (instance (globals_of self.now) here.now) path.now) }
    {
        let mut steps = List::new(alloc);
        for mention in path {
            let name = Text::new(alloc, mention.name.bytes())?;
            let index = self.index(here, mention);
            steps.push(Step { name, index })?;
        }
        Ok(steps)
    }
}

// Whether this is the name of an input.
fn is_input(known: &Known<'_>) -> bool
    ensures { result ≡ uses.is_input known.now }
{
    matches!(known.decl, Decl::Input { .. })
}

// The number of a constant, or of a value of an enumeration, which is its place.
#[tactic(auto, using(crate::proofs::Numbers::small_place))]
fn number_of(known: &Known<'_>) -> i64
    requires { IsSmall (spec.number_of known.now) }
    ensures { result ≡ spec.number_of known.now }
{
    match known.value {
        Some(place) => place as i64,
        None => known.constant().unwrap_or(0),
    }
}
