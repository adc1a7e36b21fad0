//! Declarations that differ. They are looked up by their names; macros are passed over.

use crate::found::Found;
use rsml_base::NoMemory;
use rsml_names::{Globals, NameList, name_of, previous_names, size_of};
use rsml_syntax::{Case, Decl, SendCase, Spec};
use std::alloc::Global;

/// The declarations of a specification, what their names stand for, and the names after `previous`.
pub struct Declared<'t> {
    decls: &'t [Decl],
    globals: Globals<'t>,
    previous: NameList<'t>,
}

impl Drop for Declared<'_> {
    fn drop(self) {
        let Self {
            decls: _,
            globals: _,
            previous: _,
        } = self;
    }
}

/// What a declaration declares.
fn sort_of(decl: &Decl) -> &'static str {
    match decl {
        Decl::Enumeration { .. } => "enumeration",
        Decl::Range { .. } => "range",
        Decl::Constant { .. } => "constant",
        Decl::Input { .. } => "input",
        Decl::Event { .. } => "event",
        Decl::Macro { .. } => "macro",
        Decl::Function { .. } => "function",
        Decl::Receive { .. } => "receive",
        Decl::Send { .. } => "send",
    }
}

impl<'t> Declared<'t> {
    pub fn new(alloc: Global, spec: &'t Spec) -> Result<Declared<'t>, NoMemory> {
        let decls = spec.decls.as_slice();
        let globals = Globals::new(alloc, decls)?;
        let previous = previous_names(alloc, spec)?;
        Ok(Declared {
            decls,
            globals,
            previous,
        })
    }

    /// The declaration of the same sort and name.
    fn like(&self, decl: &Decl) -> Option<&'t Decl> {
        let known = self.globals.meaning(name_of(decl))?;
        if known.value.is_none() && sort_of(known.decl) == sort_of(decl) {
            Some(known.decl)
        } else {
            None
        }
    }

    /// Whether a declaration, of no macro, has none like it here.
    fn lacks(&self, decl: &Decl) -> bool {
        !matches!(decl, Decl::Macro { .. }) && self.like(decl).is_none()
    }

    /// Whether the name of a declaration stands after `previous`.
    fn is_previous(&self, decl: &Decl) -> bool {
        self.previous.has(name_of(decl).bytes())
    }
}

/// Whether some of the cases of a function at the same places have other values.
fn other_values(ones: &[Case], twos: &[Case]) -> bool {
    for (place, one) in ones.iter().enumerate() {
        if let Some(two) = twos.get(place)
            && one.value != two.value
        {
            return true;
        }
    }
    false
}

/// Whether some of the cases of a send at the same places have other events or send something else.
fn other_answers(ones: &[SendCase], twos: &[SendCase]) -> bool {
    for (place, one) in ones.iter().enumerate() {
        if let Some(two) = twos.get(place)
            && (one.trigger != two.trigger || one.answer != two.answer)
        {
            return true;
        }
    }
    false
}

/// Compares two declarations of one sort and name but for their sizes.
fn compare_inside<'t>(found: &mut Found<'t>, one: &'t Decl, two: &'t Decl) {
    let (sort, name, again) = (sort_of(one), name_of(one), name_of(two));
    match (one, two) {
        (Decl::Enumeration { values, .. }, Decl::Enumeration { values: others, .. }) => {
            found.compare(sort, name, again, &[(values != others, "has other values")]);
        }
        (
            Decl::Range { low, high, .. },
            Decl::Range {
                low: from,
                high: to,
                ..
            },
        ) => {
            let differs = low != from || high != to;
            found.compare(sort, name, again, &[(differs, "has other bounds")]);
        }
        (Decl::Constant { value, .. }, Decl::Constant { value: other, .. }) => {
            found.compare(sort, name, again, &[(value != other, "has another value")]);
        }
        (
            Decl::Input { kind, initial, .. },
            Decl::Input {
                kind: other,
                initial: first,
                ..
            },
        ) => {
            let parts = [
                (kind != other, "has another type"),
                (initial != first, "has another first value"),
            ];
            found.compare(sort, name, again, &parts);
        }
        (Decl::Function { cases, .. }, Decl::Function { cases: others, .. }) => {
            let (cases, others) = (cases.as_slice(), others.as_slice());
            let parts = [
                (cases.len() != others.len(), "has another number of cases"),
                (other_values(cases, others), "has another value in a case"),
            ];
            found.compare(sort, name, again, &parts);
        }
        (
            Decl::Receive { inputs, raised, .. },
            Decl::Receive {
                inputs: others,
                raised: event,
                ..
            },
        ) => {
            let parts = [
                (inputs != others, "has other inputs"),
                (raised != event, "raises another event"),
            ];
            found.compare(sort, name, again, &parts);
        }
        (
            Decl::Send { fields, cases, .. },
            Decl::Send {
                fields: names,
                cases: others,
                ..
            },
        ) => {
            let (cases, others) = (cases.as_slice(), others.as_slice());
            let parts = [
                (fields != names, "has other fields"),
                (cases.len() != others.len(), "has another number of cases"),
                (
                    other_answers(cases, others),
                    "has another event or another value in a case",
                ),
            ];
            found.compare(sort, name, again, &parts);
        }
        _ => {}
    }
}

/// Compares the declarations of two specifications.
pub fn compare_declarations<'t>(found: &mut Found<'t>, one: &Declared<'t>, two: &Declared<'t>) {
    for decl in one.decls {
        if two.lacks(decl) {
            found.only_first(sort_of(decl), name_of(decl));
        }
    }
    for decl in two.decls {
        if one.lacks(decl) {
            found.only_second(sort_of(decl), name_of(decl));
        }
        if let Some(other) = one.like(decl)
            && !matches!(decl, Decl::Macro { .. })
        {
            compare_inside(found, other, decl);
            let parts = [
                (size_of(other) != size_of(decl), "has another size"),
                (
                    one.is_previous(decl) != two.is_previous(decl),
                    "stands after `previous` in one of the files alone",
                ),
            ];
            found.compare(sort_of(decl), name_of(other), name_of(decl), &parts);
        }
    }
}
