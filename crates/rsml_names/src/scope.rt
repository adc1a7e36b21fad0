ghost use Rattle.std.specs.Prelude.{◌≡◌};
ghost use Rattle.std.specs.Option.{option_copied, option_map};
ghost use Rattle.rsml_syntax.specs.grammar.Parts as parts;
ghost use Rattle.rsml_syntax.specs.rules.Scopes as spec;
ghost use Rattle.rsml_syntax.specs.rules.Declarations as declarations;

use crate::name_tables::NameTables;
use rsml_syntax::{Amount, Text};
use std::marker::Model;

/// Where a mention stands.
#[derive(Drop)]
pub struct Scope<'a> {
    /// The global names with a lower place are declared before it.
    pub before: usize,
    /// The size of what `this` is an index of.
    pub this: Option<i64>,
    /// The variable of the quantifier around it, with its bound.
    pub variable: Option<(&'a Text, i64)>,
}

impl<'a> Model for Scope<'a> {
    ghost use Rattle.std.specs.Option.{option_map};
    ghost use Rattle.rsml_syntax.specs.rules.Scopes as spec;

    ghost Value = { spec.Scope };

    ghost view = { λ s. record {
      before = s.before;
      this = s.this;
      variable = option_map (λ v. (v.0.now, v.1)) s.variable;
    } };
}

/// Of an array and the one around it, the inner one.
pub fn nearer<'a>(own: Option<&'a Amount>, around: Option<&'a Amount>) -> Option<&'a Amount>
    ensures { option_copied result
        ≡ parts.nearer (option_copied own.entry) (option_copied around.entry) }
{
    own.or(around)
}

/// Where a declaration of this place and size stands.
pub fn scope_at<'a>(tables: &NameTables<'a>, place: usize, size: Option<&Amount>) -> Scope<'a>
    ensures { result ≡ declarations.scope_at tables.now place (option_copied size.entry) }
{
    Scope {
        before: place,
        this: tables.globals.size(size),
        variable: None,
    }
}

impl<'a> Scope<'a> {
    /// The bound of the variable of this name.
    pub fn bound_of(&self, name: &Text) -> Option<i64>
        ensures { result ≡ spec.bound_of self.now name.now }
    {
        match &self.variable {
            Some((variable, bound)) if variable.bytes() == name.bytes() => Some(*bound),
            _ => None,
        }
    }
}
