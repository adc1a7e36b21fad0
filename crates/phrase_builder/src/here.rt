ghost use Rattle.std.specs.Prelude.{◌≡◌};
ghost use Rattle.rsml_syntax.specs.limits.Comparisons.{variable_value};
ghost use Rattle.rsml_meaning.specs.Truth.{within, quantified};

use rsml_syntax::Text;
use std::marker::Model;

/// The variable of a quantifier, and its value.
#[derive(Clone, Copy)]
pub struct Variable<'t> {
    pub name: &'t Text,
    pub value: u8,
}

/// What the indices stand for where a phrase is read.
#[derive(Drop)]
pub struct Here<'t> {
    pub this: u8,
    pub variable: Option<Variable<'t>>,
}

impl<'t> Model for Here<'t> {
    ghost use Rattle.std.specs.Option.{option_map};
    ghost use Rattle.rsml_syntax.specs.limits.Comparisons.{Indices};

    ghost Value = { Indices };

    ghost view = { λ h. record { this = h.this; variable = option_map (λ v. (v.name.now, v.value)) h.variable } };
}

impl<'t> Here<'t> {
    /// Inside the instance of this index, and in no quantifier.
    pub fn within(this: u8) -> Here<'t>
        ensures { result ≡ within this }
    {
        Here {
            this,
            variable: None,
        }
    }

    /// There, inside a quantifier, at this value of its variable.
    pub fn quantified(this: u8, name: &'t Text, value: u8) -> Here<'t>
        ensures { result ≡ quantified (within this) name.now value }
    {
        Here {
            this,
            variable: Some(Variable { name, value }),
        }
    }

    /// The value of the variable of this name.
    pub fn value(&self, name: &Text) -> Option<u8>
        ensures { result ≡ variable_value self.now name.now }
    {
        match &self.variable {
            Some(variable) if *variable.name == *name => Some(variable.value),
            _ => None,
        }
    }
}
