ghost use Rattle.std.specs.Prelude.{◌≡◌, ◌++◌, IfOk, OnOk, Some, flat_map, replicate, slice_get, length};
ghost use Rattle.std.specs.Option.{option_copied, option_map};
ghost use Rattle.rsml_syntax.specs.rules.Globals.{names_of};
ghost use Rattle.rsml_syntax.specs.text.Names.{place_of};
ghost use Rattle.event_lines.specs.helpers.Declared.{declared_by, owners_from};

use rsml_names::{NameList, name_of, values_of};
use rsml_syntax::{Decl, NoMemory};
use std::alloc::Global;
use std::marker::Model;

/// The declaration of each global name. Contracts see the declarations.
pub struct Owners<'a> {
    decls: &'a [Decl],
    names: NameList<'a>,
    numbers: Vec<usize>,
}

impl Drop for Owners<'_> {
    fn drop(self) {
        let Self {
            decls: _,
            names: _,
            numbers: _,
        } = self;
    }
}

impl<'a> Model for Owners<'a> {
    ghost use Rattle.std.specs.Prelude.{◌≡◌, List, flat_map};
    ghost use Rattle.std.specs.Coded.{codes};
    ghost use Rattle.rsml_syntax.specs.declared.syntax.Decl.{Decl};
    ghost use Rattle.rsml_syntax.specs.rules.Globals.{names_of};
    ghost use Rattle.event_lines.specs.helpers.Declared.{owners_from};

    ghost Value = { List Decl };

    ghost view = { λ o. o.decls.now };

    ghost invariant = { λ o. (o.names ≡ flat_map names_of o.decls.now)
        × (o.numbers.items ≡ owners_from 0 o.decls.now) };
}

/// Adds the global names of a declaration.
#[tactic(auto, using(rsml_names::proofs::Gathering::names_turn))]
fn add_names<'a>(names: &mut NameList<'a>, decl: &'a Decl) -> Result<(), NoMemory>
    ensures { OnOk result (names.new ≡ names.old ++ names_of decl.now) }
{
    names.add(name_of(decl).bytes())?;
    for value in values_of(decl) {
        names.add(value.bytes())?;
    }
    Ok(())
}

/// The global names of declarations.
fn names_in<'a>(alloc: Global, decls: &'a [Decl]) -> Result<NameList<'a>, NoMemory>
    ensures { IfOk result (λ names. names ≡ flat_map names_of decls.now) }
{
    let mut names = NameList::new(alloc);
    for decl in decls {
        add_names(&mut names, decl)?;
    }
    Ok(names)
}

/// Adds a number so many times.
fn add_number(numbers: &mut Vec<usize>, count: usize, number: usize) -> Result<(), NoMemory>
    ensures { OnOk result (numbers.new.items ≡ numbers.old.items ++ replicate count number) }
{
    for _turn in 0..count {
        numbers.push(number)?;
    }
    Ok(())
}

/// The number of the declaration of each global name.
fn numbers_of(alloc: Global, decls: &[Decl]) -> Result<Vec<usize>, NoMemory>
    ensures { IfOk result (λ numbers. numbers.items ≡ owners_from 0 decls.now) }
{
    let mut numbers = Vec::new(alloc);
    for (number, decl) in decls.iter().enumerate() {
        add_number(&mut numbers, values_of(decl).len() + 1, number)?;
    }
    Ok(numbers)
}

impl<'a> Owners<'a> {
    /// Those of declarations.
    pub fn new(alloc: Global, decls: &'a [Decl]) -> Result<Owners<'a>, NoMemory>
        ensures { IfOk result (λ owners. owners ≡ decls.now) }
    {
        let names = names_in(alloc, decls)?;
        let numbers = numbers_of(alloc, decls)?;
        Ok(Owners {
            decls,
            names,
            numbers,
        })
    }

    /// How many declarations there are.
    pub fn count(&self) -> usize
        ensures { result ≡ length self.now }
    {
        self.decls.len()
    }

    /// The place of a global name.
    fn place(&self, name: &[u8]) -> Option<usize>
        ensures { result ≡ place_of name.now (flat_map names_of self.now) }
    {
        self.names.find(name)
    }

    /// The number of the declaration of the global name at a place.
    fn at(&self, place: usize) -> Option<usize>
        ensures { result ≡ slice_get (owners_from 0 self.now) place }
    {
        self.numbers.get(place).copied()
    }

    /// The number of the declaration of a global name.
    pub fn number(&self, name: &[u8]) -> Option<usize>
        ensures { option_map (λ n. slice_get self.now n) result
            ≡ option_map (λ d. Some d) (declared_by self.now name.now) }
    {
        match self.place(name) {
            Some(place) => self.at(place),
            None => None,
        }
    }

    /// The declaration of a global name.
    pub fn decl(&self, name: &[u8]) -> Option<&'a Decl>
        ensures { option_copied result ≡ declared_by self.now name.now }
    {
        self.decls.get(self.number(name)?)
    }
}
