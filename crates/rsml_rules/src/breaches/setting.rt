ghost use Rattle.std.specs.Prelude.{◌≡◌, IfOk, map};
ghost use Rattle.rsml_syntax.specs.rules.Kinds.{function_cases};
ghost use Rattle.rsml_names.specs.Kin.{Holds};
ghost use Rattle.rsml_rules.specs.breaches.Settings.{first_of};
ghost use Rattle.rsml_rules.specs.breaches.Settings as settings;

use crate::breaches::kinds::{FirstKind, first_kinds};
use rsml_names::{Families, NameTables};
use rsml_syntax::{NoMemory, Text};
use std::alloc::Global;
use std::marker::Model;

/// All that judging looks at: what names stand for, the children of states, and the kind of each
/// function's first case.
#[derive(Drop)]
pub struct Setting<'a, 't> {
    tables: &'t NameTables<'a>,
    families: Families<'a>,
    top: usize,
    first_kinds: Vec<FirstKind<'a>>,
}

impl<'a, 't> Model for Setting<'a, 't> {
    ghost use Rattle.std.specs.Prelude.{map};
    ghost use Rattle.rsml_rules.specs.breaches.Settings as spec;
    ghost use Rattle.rsml_syntax.specs.contracts.syntax.StateDecl as state;
    ghost use Rattle.std.specs.Coded.{codes};

    ghost Value = { spec.Set };

    ghost coded = { Prim.hlevel (codes, state.the_row.coded) };

    ghost view = { λ s. record {
      tables = s.tables.now;
      families = s.families;
      top = s.top;
      first_kinds = map spec.first_of s.first_kinds.items;
    } };

    ghost invariant = { λ s. spec.IsSet (record {
      tables = s.tables.now;
      families = s.families;
      top = s.top;
      first_kinds = map spec.first_of s.first_kinds.items;
    }) };
}

impl<'a, 't> Setting<'a, 't> {
    /// What judging with these tables looks at.
    pub fn new(alloc: Global, tables: &'t NameTables<'a>) -> Result<Setting<'a, 't>, NoMemory>
        ensures { IfOk result (λ s. s.tables ≡ tables.now) }
    {
        let (families, top) = Families::new(alloc, tables.body)?;
        let first_kinds = first_kinds(alloc, &tables.globals)?;
        Ok(Setting {
            tables,
            families,
            top,
            first_kinds,
        })
    }

    /// What all names stand for.
    pub fn tables(&self) -> &'t NameTables<'a>
        ensures { result.now ≡ self.now.tables }
    {
        self.tables
    }

    /// The children of all states.
    pub fn families(&self) -> &Families<'a>
        ensures { result.now ≡ self.now.families }
    {
        &self.families
    }

    /// The family of the top state's children.
    pub fn top(&self) -> usize
        ensures { Holds self.now.families result self.now.tables.children }
    {
        self.top
    }

    /// The kinds of first cases, at the places of the global names.
    fn first_kinds(&self) -> &[FirstKind<'a>]
        ensures { map first_of result.now ≡ settings.first_kinds self.now.tables.globals }
    {
        self.first_kinds.as_slice()
    }

    /// The kind of the first case of the function of this name.
    pub fn first_kind_of(&self, name: &Text) -> FirstKind<'a>
        ensures { first_of result ≡ settings.first_kind self.now.tables.globals
            (function_cases self.now.tables.globals name.now) }
    {
        match self.tables().globals.place(name) {
            Some(place) => match self.first_kinds().get(place) {
                Some(kind) => *kind,
                None => FirstKind::NoCase,
            },
            None => FirstKind::NoCase,
        }
    }
}
