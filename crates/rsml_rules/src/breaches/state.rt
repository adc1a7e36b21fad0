ghost use Rattle.std.specs.Prelude.{◌≡◌};
ghost use Rattle.rsml_syntax.specs.rules.States as states;

use rsml_names::{NameTables, Scope, nearer, scope_at};
use rsml_syntax::{Amount, Body, Text};
use std::marker::Model;

/// A state, and what it stands in.
#[derive(Drop)]
pub struct State<'a> {
    pub name: &'a Text,
    /// An earlier child of its parent has the name.
    pub repeated: bool,
    /// Its own size, where it is an array.
    pub size: Option<&'a Amount>,
    /// The size of the innermost array around it.
    pub array: Option<&'a Amount>,
    /// Its parent is a `one` state.
    pub in_one: bool,
    pub body: &'a Body,
}

impl<'a> Model for State<'a> {
    ghost use Rattle.std.specs.Option.{option_copied};
    ghost use Rattle.rsml_syntax.specs.grammar.Parts as parts;
    ghost use Rattle.rsml_syntax.specs.contracts.syntax.Body as bodies;
    ghost use Rattle.std.specs.Coded.{codes};

    ghost Value = { parts.State };

    ghost coded = { Prim.hlevel (codes, bodies.the_row.coded) };

    ghost view = { λ s. record {
      name = s.name.now;
      repeated = s.repeated;
      size = option_copied s.size;
      array = option_copied s.array;
      in_one = s.in_one;
      body = s.body.now;
    } };
}

/// Where what is in a state stands: after all declarations.
pub fn state_scope<'a>(tables: &NameTables<'a>, state: &State<'a>) -> Scope<'a>
    ensures { result ≡ states.state_scope tables.now state.now }
{
    scope_at(
        tables,
        tables.globals.count(),
        nearer(state.size, state.array),
    )
}
