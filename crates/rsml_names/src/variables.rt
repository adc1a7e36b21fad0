ghost use Rattle.std.specs.Prelude.{◌≡◌, [], ◌∷◌, ◌++◌, IfOk, find, flat_map, map};
ghost use Rattle.std.specs.Option.{option_map};
ghost use Rattle.rsml_syntax.specs.text.Names.{same};
ghost use Rattle.rsml_syntax.specs.rules.Scopes as spec;
ghost use Rattle.rsml_syntax.specs.grammar.Written as written;
ghost use Rattle.rsml_names.specs.Bound as names;

use crate::declarations::rows_of;
use crate::globals::{Globals, Known};
use crate::guarded::Guarded;
use crate::name_list::NameList;
use rsml_syntax::{Decl, NoMemory, Phrase, Row, Text};
use std::alloc::Global;
use std::marker::Model;

/// The variables of quantifiers in order, each with the place of the declaration that it stands in.
pub struct Variables<'a> {
    names: NameList<'a>,
    places: Vec<usize>,
}

impl Drop for Variables<'_> {
    fn drop(self) {
        let Self {
            names: _,
            places: _,
        } = self;
    }
}

impl<'a> Model for Variables<'a> {
    ghost use Rattle.std.specs.Prelude.{◌≡◌, List, length};
    ghost use Rattle.rsml_syntax.specs.rules.Scopes as spec;
    ghost use Rattle.rsml_names.specs.Bound.{joined};

    ghost Value = { List spec.Variable };

    ghost view = { λ v. joined v.names v.places.items };

    ghost invariant = { λ v. length v.names ≡ length v.places.items };
}

impl<'a> Variables<'a> {
    /// The variables of the declarations that have these global names.
    pub fn new(alloc: Global, globals: &Globals<'a>) -> Result<Variables<'a>, NoMemory>
        ensures { IfOk result (λ v. v ≡ names.variables_from 0 globals.now.known) }
    {
        let mut variables = Variables {
            names: NameList::new(alloc),
            places: Vec::new(alloc),
        };
        for (place, known) in globals.all().iter().enumerate() {
            variables = variables.with_known(place, known)?;
        }
        Ok(variables)
    }

    /// These and, at a declaration's own name, its variables.
    fn with_known(self, place: usize, known: &Known<'a>) -> Result<Variables<'a>, NoMemory>
        ensures { IfOk result (λ v. v ≡ self.entry ++ names.variables_at place known.now) }
    {
        match known.value {
            Some(_) => Ok(self),
            None => self.with(place, known.decl),
        }
    }

    /// These and the variables of a declaration of this place.
    #[tactic(auto, using(crate::proofs::BoundLemmas::of_macro))]
    fn with(self, place: usize, decl: &'a Decl) -> Result<Variables<'a>, NoMemory>
        ensures { IfOk result (λ v. v
            ≡ self.entry ++ map (spec.variable_at place) (written.variables_in decl.now)) }
    {
        match decl {
            Decl::Macro { rows, .. } => self.with_rows(place, rows.as_slice()),
            Decl::Function { cases, .. } => self.with_guards(place, cases.as_slice()),
            Decl::Send { cases, .. } => self.with_guards(place, cases.as_slice()),
            _ => Ok(self),
        }
    }

    /// These and the variables of guards.
    fn with_guards<G: Guarded>(
        self,
        place: usize,
        guarded: &'a [G],
    ) -> Result<Variables<'a>, NoMemory>
        ensures { IfOk result (λ v. v
            ≡ self.entry ++ flat_map (λ x. names.of_guard place (G.guard_of x)) guarded.now) }
    {
        let mut variables = self;
        for each in guarded {
            variables = variables.with_rows(place, rows_of(each.guard()))?;
        }
        Ok(variables)
    }

    /// These and the variables of the rows of a table.
    fn with_rows(self, place: usize, rows: &'a [Row]) -> Result<Variables<'a>, NoMemory>
        ensures { IfOk result (λ v. v ≡ self.entry ++ names.of_rows place rows.now) }
    {
        let mut variables = self;
        for row in rows {
            variables = variables.with_phrase(place, &row.phrase)?;
        }
        Ok(variables)
    }

    /// These and the variable of a phrase, if it has one.
    fn with_phrase(self, place: usize, phrase: &'a Phrase) -> Result<Variables<'a>, NoMemory>
        ensures { IfOk result (λ v. v ≡ self.entry ++ names.of_phrase place phrase.now) }
    {
        match phrase {
            Phrase::Plain(_) => Ok(self),
            Phrase::Any { variable, .. } | Phrase::Every { variable, .. } => {
                self.put(place, variable)
            }
        }
    }

    /// These and one more.
    fn put(self, place: usize, name: &'a Text) -> Result<Variables<'a>, NoMemory>
        ensures { IfOk result (λ v. v ≡ self.entry ++ spec.variable_at place name.now ∷ []) }
    {
        let Variables {
            mut names,
            mut places,
        } = self;
        names.add(name.bytes())?;
        places.push(place)?;
        Ok(Variables { names, places })
    }

    /// The place of the declaration with the first variable of this name.
    pub fn first(&self, name: &Text) -> Option<usize>
        ensures { result ≡ option_map (λ v. v.place) (find (λ v. same name.now v.name) self.now) }
    {
        let first = self.names.find(name.bytes())?;
        self.places.get(first).copied()
    }
}
