ghost use Rattle.std.specs.Prelude.{◌≡◌, ◌++◌, IfOk, OnOk, slice_get, length};
ghost use Rattle.std.specs.Option.{option_copied, option_map};
ghost use Rattle.rsml_syntax.specs.text.Names.{place_of};
ghost use Rattle.rsml_syntax.specs.rules.Globals as spec;
ghost use Rattle.rsml_syntax.specs.rules.Scopes as scopes;
ghost use Rattle.rsml_syntax.specs.rules.Uses as uses;

use crate::declarations::{name_of, number_of, size_of, values_of};
use crate::name_list::NameList;
use rsml_syntax::{Amount, Decl, NoMemory, Text};
use std::alloc::Global;
use std::marker::Model;

/// What a global name is: that of a declaration, or the value at a place of the enumeration that it
/// declares.
#[derive(Drop)]
pub struct Known<'a> {
    pub decl: &'a Decl,
    pub value: Option<usize>,
}

impl<'a> Model for Known<'a> {
    ghost use Rattle.rsml_syntax.specs.rules.Globals as spec;

    ghost Value = { spec.Known };

    ghost view = { λ k. record { decl = k.decl.now; value = k.value } };
}

impl<'a> Known<'a> {
    /// The number of a constant.
    pub fn constant(&self) -> Option<i64>
        ensures { result ≡ spec.constant_of self.now }
    {
        match self.decl {
            Decl::Constant { value, .. } => Some(number_of(value)),
            _ => None,
        }
    }

    /// Whether it is an input.
    pub fn is_input(&self) -> bool
        ensures { result ≡ uses.is_input self.now }
    {
        matches!(self.decl, Decl::Input { .. })
    }

    /// The size that the name was declared with.
    pub fn size(&self) -> Option<&'a Amount>
        ensures { option_copied result ≡ spec.size_of self.now.decl }
    {
        size_of(self.decl)
    }
}

/// All global names in the order of their declaration, and what each is.
pub struct Globals<'a> {
    names: NameList<'a>,
    known: Vec<Known<'a>>,
}

impl Drop for Globals<'_> {
    fn drop(self) {
        let Self { names: _, known: _ } = self;
    }
}

impl<'a> Model for Globals<'a> {
    ghost use Rattle.rsml_syntax.specs.rules.Globals as spec;

    ghost Value = { spec.Globals };

    ghost view = { λ g. record { names = g.names; known = g.known.items } };
}

impl<'a> Globals<'a> {
    /// The global names of declarations.
    pub fn new(alloc: Global, decls: &'a [Decl]) -> Result<Globals<'a>, NoMemory>
        ensures { IfOk result (λ g. g ≡ spec.globals decls.now) }
    {
        let mut globals = Globals {
            names: NameList::new(alloc),
            known: Vec::new(alloc),
        };
        for decl in decls {
            globals.add(decl)?;
        }
        Ok(globals)
    }

    /// Adds the names of a declaration.
    #[tactic(auto, using(crate::proofs::Gathering::names_turn, crate::proofs::Gathering::known_turn))]
    fn add(&mut self, decl: &'a Decl) -> Result<(), NoMemory>
        ensures names { OnOk result (self.new.names ≡ self.old.names ++ spec.names_of decl.now) }
        ensures known { OnOk result (self.new.known ≡ self.old.known ++ spec.known_by decl.now) }
    {
        self.names.add(name_of(decl).bytes())?;
        self.known.push(Known { decl, value: None })?;
        for (number, value) in values_of(decl).iter().enumerate() {
            self.names.add(value.bytes())?;
            self.known.push(Known {
                decl,
                value: Some(number),
            })?;
        }
        Ok(())
    }

    /// How many global names there are.
    pub fn count(&self) -> usize
        ensures { result ≡ length self.now.names }
    {
        self.names.count()
    }

    /// What each global name is.
    pub fn all(&self) -> &[Known<'a>]
        ensures { result.now ≡ self.now.known }
    {
        self.known.as_slice()
    }

    /// The place of the first such name.
    pub fn place(&self, name: &Text) -> Option<usize>
        ensures { result ≡ place_of name.now self.now.names }
    {
        self.names.find(name.bytes())
    }

    /// What stands at a place.
    pub fn at(&self, place: usize) -> Option<&Known<'a>>
        ensures { option_copied result ≡ slice_get self.now.known place }
    {
        self.known.get(place)
    }

    /// What a name is, by its first declaration.
    pub fn meaning(&self, name: &Text) -> Option<&Known<'a>>
        ensures { option_copied result ≡ spec.meaning self.now name.now }
    {
        self.at(self.place(name)?)
    }

    /// The number of a constant.
    pub fn constant(&self, name: &Text) -> Option<i64>
        ensures { result ≡ spec.constant self.now name.now }
    {
        self.meaning(name)?.constant()
    }

    /// The number of a size or of a bound.
    pub fn amount(&self, amount: &Amount) -> Option<i64>
        ensures { result ≡ spec.amount_of self.now amount.now }
    {
        match amount {
            Amount::Number(number) => Some(i64::from(*number)),
            Amount::Name(name) => self.constant(name),
        }
    }

    /// The number of a size, where there is one.
    pub fn size(&self, size: Option<&Amount>) -> Option<i64>
        ensures { result ≡ scopes.size_number self.now (option_copied size.entry) }
    {
        self.amount(size?)
    }

    /// How many there are of what is declared with this size.
    pub fn many(&self, size: Option<&Amount>) -> u64
        ensures { result ≡ spec.many self.now (option_copied size.entry) }
    {
        match self.size(size) {
            Some(number) => number.unsigned_abs(),
            None => 1,
        }
    }
}
