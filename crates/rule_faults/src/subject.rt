use rsml_base::Text;
use rsml_names::{Globals, Known, name_of, values_of};
use rsml_syntax::{Amount, Decl, Spec};
use source_notes::{Notes, Piece};
use source_survey::{Declared, Sort, Survey, Use, sort_of};

/// A specification, and the name at which it breaks a rule.
#[derive(Clone, Copy)]
pub struct Subject<'a, 's> {
    pub spec: &'a Spec,
    pub globals: &'s Globals<'a>,
    pub survey: &'s Survey<'a>,
    pub name: &'a Text,
}

impl<'a, 's> Subject<'a, 's> {
    /// Whether it is the name that is shown.
    pub fn is_shown(&self, name: &Text) -> bool {
        name.at() == self.name.at()
    }

    /// The name where it is declared.
    pub fn declared(&self) -> Option<Declared<'a>> {
        for declared in self.survey.declared.as_slice() {
            if self.is_shown(declared.name) {
                return Some(*declared);
            }
        }
        None
    }

    /// The name where it is used.
    pub fn used(&self) -> Option<Use<'a>> {
        for used in self.survey.uses.as_slice() {
            if self.is_shown(used.name) {
                return Some(*used);
            }
        }
        None
    }

    /// The declaration whose name it is.
    pub fn declaration(&self) -> Option<&'a Decl> {
        for decl in self.spec.decls.as_slice() {
            if self.is_shown(name_of(decl)) {
                return Some(decl);
            }
        }
        None
    }

    /// The number of a size; 0 where there is none.
    pub fn number(&self, amount: &Amount) -> i64 {
        match self.globals.amount(amount) {
            Some(number) => number,
            None => 0,
        }
    }

    /// Tells what a name is, where it is declared.
    pub fn tell_meaning(&self, notes: &mut Notes<'_>, name: &Text) {
        if let Some(known) = self.globals.meaning(name) {
            tell_known(notes, known);
        }
    }
}

/// The name of what is known, where it is declared.
pub fn known_name<'a>(known: &Known<'a>) -> &'a Text {
    let name = name_of(known.decl);
    match known.value {
        Some(place) => match values_of(known.decl).get(place) {
            Some(value) => value,
            None => name,
        },
        None => name,
    }
}

/// What a known name is declared as.
pub fn known_sort(known: &Known<'_>) -> Sort {
    match known.value {
        Some(_) => Sort::EnumerationValue,
        None => sort_of(known.decl),
    }
}

/// What a name is declared as, in words, and behind them the name of its type.
fn words_of<'a>(known: &Known<'a>) -> (&'static str, Piece<'a>) {
    match known.decl {
        Decl::Enumeration { name, .. } if known.value.is_some() => {
            ("a value of the enumeration ", Piece::Name(name))
        }
        Decl::Input { kind, .. } => ("an input of the type ", Piece::Name(kind)),
        _ => (known_sort(known).words(), Piece::Nothing),
    }
}

/// Tells where a name is declared, and as what.
pub fn tell_known(notes: &mut Notes<'_>, known: &Known<'_>) {
    let name = known_name(known);
    let (words, kind) = words_of(known);
    notes.say_four(
        "{} is {}{}, declared at {}",
        Piece::Name(name),
        Piece::Words(words),
        kind,
        Piece::Place(name.at()),
    );
}
