ghost use Rattle.std.specs.Prelude.{◌≡◌, IfOk};
ghost use Rattle.rsml_syntax.specs.rules.Rules as rules;
ghost use Rattle.rsml_syntax.specs.rules.Scopes as spec;

use crate::globals::Globals;
use crate::variables::Variables;
use rsml_syntax::{Body, NoMemory, Spec, Text};
use std::alloc::Global;
use std::marker::Model;

/// What all names of a specification stand for.
#[derive(Drop)]
pub struct NameTables<'a> {
    pub globals: Globals<'a>,
    pub variables: Variables<'a>,
    pub top: &'a Text,
    pub body: &'a Body,
}

impl<'a> Model for NameTables<'a> {
    ghost use Rattle.rsml_syntax.specs.rules.Scopes as spec;
    ghost use Rattle.rsml_syntax.specs.grammar.Parts.{children_of};
    ghost use Rattle.rsml_syntax.specs.contracts.syntax.StateDecl as state;
    ghost use Rattle.std.specs.Coded.{codes};

    ghost Value = { spec.NameTables };

    ghost coded = { Prim.hlevel (codes, state.the_row.coded) };

    ghost view = { λ w. record {
      globals = w.globals;
      variables = w.variables;
      top = w.top.now;
      children = children_of w.body.now;
    } };
}

impl<'a> NameTables<'a> {
    /// Those of a specification.
    #[tactic(auto, using(crate::proofs::BoundLemmas::of_globals))]
    pub fn new(alloc: Global, spec: &'a Spec) -> Result<NameTables<'a>, NoMemory>
        ensures { IfOk result (λ tables. tables ≡ rules.name_tables spec.now) }
    {
        let globals = Globals::new(alloc, spec.decls.as_slice())?;
        let variables = Variables::new(alloc, &globals)?;
        Ok(NameTables {
            globals,
            variables,
            top: &spec.top,
            body: &spec.body,
        })
    }

    /// The place of the first declaration in which a quantifier has a variable of this name.
    pub fn first_bound(&self, name: &Text) -> Option<usize>
        ensures { result ≡ spec.first_bound self.now name.now }
    {
        self.variables.first(name)
    }
}
