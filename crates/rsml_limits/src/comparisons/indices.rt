ghost use Rattle.std.specs.Prelude.{◌≡◌, None, Some};
ghost use Rattle.std.specs.Option.{option_copied};
ghost use Rattle.rsml_syntax.specs.limits.Comparisons as spec;

use rsml_names::Globals;
use rsml_syntax::{Index, Text};
use std::marker::Model;

/// The variable of a quantifier, and its value.
#[derive(Clone, Copy)]
pub struct Variable<'a> {
    pub name: &'a Text,
    pub value: u64,
}

/// What the indices stand for in one reading of a row.
#[derive(Drop)]
pub struct Indices<'a> {
    this: u64,
    variable: Option<Variable<'a>>,
}

impl<'a> Model for Indices<'a> {
    ghost use Rattle.std.specs.Option.{option_map};
    ghost use Rattle.rsml_syntax.specs.limits.Comparisons as spec;

    ghost Value = { spec.Indices };

    ghost view = { λ r. record { this = r.this; variable = option_map (λ v. (v.name.now, v.value)) r.variable } };
}

impl<'a> Indices<'a> {
    /// The reading in the instance of this index, where there is no variable.
    pub fn plain(this: u64) -> Indices<'a>
        ensures { result ≡ record { this = this; variable = None } }
    {
        Indices {
            this,
            variable: None,
        }
    }

    /// The reading in the instance of this index, for a value of a variable.
    pub fn quantified(this: u64, name: &'a Text, value: u64) -> Indices<'a>
        ensures { result ≡ record { this = this; variable = Some (name.now, value) } }
    {
        Indices {
            this,
            variable: Some(Variable { name, value }),
        }
    }

    // The value of the variable of this name.
    fn value(&self, name: &Text) -> Option<u64>
        ensures { result ≡ spec.variable_value self.now name.now }
    {
        match &self.variable {
            Some(variable) if *variable.name == *name => Some(variable.value),
            _ => None,
        }
    }

    /// The number of an index, 0 where there is none.
    pub fn index(&self, globals: &Globals<'_>, index: Option<&Index>) -> u64
        ensures { result ≡ spec.index_number globals.now self.now (option_copied index.entry) }
    {
        match index {
            None => 0,
            Some(Index::Number(number)) => u64::from(*number),
            Some(Index::Name(name)) => self.named(globals, name),
            Some(Index::This) => self.this,
        }
    }

    // The number of a name that stands as an index.
    fn named(&self, globals: &Globals<'_>, name: &Text) -> u64
        ensures { result ≡ spec.index_number globals.now self.now (Some (Index.Name name.now)) }
    {
        match self.value(name) {
            Some(value) => value,
            None => globals
                .constant(name)
                .map_or(0, |number| number.unsigned_abs()),
        }
    }
}
