ghost use Rattle.std.specs.Prelude.{◌≡◌, ◌≤◌, ◌∷◌, IfErr, IfOk, MatchOption, MatchResult, None, length, slice_get};
ghost use Rattle.std.specs.Option.{option_and_then, option_copied};
ghost use Rattle.std.specs.Str.{is_utf8};
ghost use Rattle.rsml_meaning.specs.Words.{Each};
ghost use Rattle.rsml_meaning.specs.Instances.{globals_of};
ghost use Rattle.rsml_meaning.specs.Interfaces.{receives};
ghost use Rattle.rsml_meaning.specs.EventLines as lines;
ghost use Rattle.event_lines.specs.Told.{IsReceived, Says, rule_of};
ghost use Rattle.event_lines.specs.helpers.Forms.{IsFormOf, fields_in, fields_of};

use crate::building::{forms_of, value_types};
use crate::form::Form;
use crate::indexing::index_told;
use crate::line_fault::LineFault;
use crate::owners::Owners;
use crate::reading::read_fields;
use crate::received::Received;
use crate::receives::Receives;
use crate::value_type::ValueType;
use crate::words::{first_word, split_word};
use rsml_syntax::{Checked, NoMemory, Spec};
use std::alloc::Global;
use std::marker::Model;
use std::str::from_utf8;

/// How the event lines of a specification are written: its receives with their fields, and the
/// values of these. Contracts see it as the specification.
pub struct LineForms<'a> {
    spec: &'a Spec,
    receives: Receives<'a>,
    types: Vec<ValueType<'a>>,
    forms: Vec<Option<Form<'a>>>,
}

impl Drop for LineForms<'_> {
    fn drop(self) {
        let Self {
            spec: _,
            receives: _,
            types: _,
            forms: _,
        } = self;
    }
}

impl<'a> Model for LineForms<'a> {
    ghost use Rattle.std.specs.Prelude.{◌≡◌};
    ghost use Rattle.std.specs.Coded.{codes};
    ghost use Rattle.rsml_syntax.specs.declared.syntax.Spec.{Spec};
    ghost use Rattle.rsml_syntax.specs.contracts.syntax.Body as bodies;
    ghost use Rattle.event_lines.specs.helpers.Forms.{AreForms};

    ghost Value = { Spec };

    ghost coded = { Prim.hlevel (codes, bodies.the_row.coded) };

    ghost view = { λ l. l.spec.now };

    ghost invariant = { λ l. (l.receives ≡ l.spec.now.decls)
        × AreForms l.spec.now.decls l.types.items l.forms.items };
}

/// The form at a number.
fn form_at<'f, 'a>(forms: &'f [Option<Form<'a>>], number: usize) -> Option<&'f Form<'a>>
    ensures { option_copied result
        ≡ option_and_then (λ form. form) (slice_get forms.now number) }
{
    match forms.get(number) {
        Some(form) => form.as_ref(),
        None => None,
    }
}

/// The greater of two numbers.
fn greater(a: usize, b: usize) -> usize
    ensures first { a ≤ result }
    ensures second { b ≤ result }
{
    if a < b { b } else { a }
}

/// The most fields of a form.
fn most_in(forms: &[Option<Form<'_>>]) -> usize
    ensures { Each (λ form. fields_in form ≤ result) forms.now }
{
    let mut most = 0;
    for form in forms {
        most = greater(most, fields_in(form.as_ref()));
    }
    most
}

/// How many fields a form has, if there are receives that have them.
fn count(form: &Form<'_>) -> usize
    ensures { result ≡ fields_of form.now }
{
    if form.many > 0 { form.fields.len() } else { 0 }
}

/// The same where there may be no form.
fn fields_in(form: Option<&Form<'_>>) -> usize
    ensures { result ≡ fields_in (option_copied form.entry) }
{
    match form {
        Some(form) => count(form),
        None => 0,
    }
}

/// Whether a line is UTF-8. Most are ASCII, which is told faster.
fn is_text(line: &[u8]) -> bool
    ensures { result ≡ is_utf8 line.now }
{
    line.is_ascii() || from_utf8(line).is_ok()
}

impl<'a> LineForms<'a> {
    /// How the event lines of a specification are written.
    pub fn build(alloc: Global, checked: &'a Checked) -> Result<LineForms<'a>, NoMemory>
        ensures { IfOk result (λ forms. forms ≡ checked.now) }
    {
        let spec = checked.spec();
        let decls = spec.decls.as_slice();
        let owners = Owners::new(alloc, decls)?;
        let types = value_types(alloc, decls)?;
        let forms = forms_of(alloc, &owners, decls)?;
        let receives = Receives::new(alloc, owners, decls)?;
        Ok(LineForms {
            spec,
            receives,
            types,
            forms,
        })
    }

    /// The most fields that a receive has.
    pub fn most_fields(&self) -> usize
        ensures { Each (λ x. length x.inputs ≤ result) (receives self.now) }
    {
        let _ = &self.spec;
        most_in(self.forms.as_slice())
    }

    /// The form of the lines of the receive of this name.
    fn form(&self, name: &[u8]) -> Option<&Form<'a>>
        ensures { MatchOption result (lines.interface (globals_of self.now) name.now ≡ None)
            (λ form. IsFormOf self.now name.now form.now) }
    {
        let number = self.receives.number(name)?;
        form_at(self.forms.as_slice(), number)
    }

    /// Reads the words of a line, the first of which is given.
    fn read_instance(
        &self,
        word: &[u8],
        rest: &[u8],
        values: &mut [i64],
    ) -> Result<Received, LineFault>
        requires { Each (λ x. length x.inputs ≤ length values.old) (receives self.now) }
        ensures { Says self.now
            (lines.read_words (globals_of self.now) (word.now ∷ lines.words rest.now))
            result values.new }
    {
        let (name, index) = split_word(word);
        let Some(form) = self.form(name) else {
            return Err(LineFault::UnknownInterface);
        };
        let Some(index) = index_told(form.is_array, form.many, index) else {
            return Err(LineFault::BadIndex);
        };
        match read_fields(self.types.as_slice(), form.fields.as_slice(), rest, values) {
            Ok(()) => Ok(Received {
                interface: form.number(index),
            }),
            Err(fault) => Err(fault),
        }
    }

    /// Reads the words of a line.
    fn read_words(&self, line: &[u8], values: &mut [i64]) -> Result<Received, LineFault>
        requires { Each (λ x. length x.inputs ≤ length values.old) (receives self.now) }
        ensures { Says self.now (lines.read_words (globals_of self.now) (lines.words line.now))
            result values.new }
    {
        match first_word(line) {
            Some((word, rest)) => self.read_instance(word, rest, values),
            None => Err(LineFault::UnknownInterface),
        }
    }

    /// Reads a line without its line end: the receive instance whose event it tells, with the
    /// numbers of its fields in the first values, or the lowest rule that it breaks. What the values
    /// hold after a fault is not said. It takes no memory.
    pub fn read_line(&self, line: &[u8], values: &mut [i64]) -> Result<Received, LineFault>
        requires room { Each (λ x. length x.inputs ≤ length values.old) (receives self.now) }
        ensures ok { IfOk result (λ r.
            IsReceived self.now (lines.read_line self.now line.now) r values.new) }
        ensures err { IfErr result (λ fault.
            lines.read_line self.now line.now ≡ lines.breaks (rule_of fault)) }
    {
        if is_text(line) {
            self.read_words(line, values)
        } else {
            Err(LineFault::NotUtf8)
        }
    }
}
