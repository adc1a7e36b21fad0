ghost use Rattle.std.specs.Prelude.{◌≡◌, ◌≢◌, ℕ, ◌+◌, ◌<◌, ◌≤◌, ◌∷◌, ◌++◌, [], Err, List, MatchOption, MatchResult, Ok, codes, get_or, length, map, take};
ghost use Rattle.std.specs.Option.{option_copied};
ghost use Rattle.rsml_meaning.specs.Cells.{no_type};
ghost use Rattle.rsml_meaning.specs.EventLines.{words};
ghost use Rattle.event_lines.specs.helpers.Forms.{AreWithin, field_of};
ghost use Rattle.event_lines.specs.helpers.Values as spec;
ghost use Rattle.event_lines.specs.helpers.Values.{TypedField};

use crate::field::Field;
use crate::known::behind;
use crate::line_fault::LineFault;
use crate::value_type::ValueType;
use crate::words::{first_word, has_word};

/// What stands behind a `=` that a text begins with.
fn behind_mark(rest: &[u8]) -> Option<&[u8]>
    ensures { MatchOption result ((value : List ℕ) → rest.now ≢ codes "=" ++ value)
        (λ value. rest.now ≡ codes "=" ++ value.now) }
{
    rest.strip_prefix(b"=")
}

/// What stands behind the field's name and `=` in a word that begins so.
fn value_text<'w>(name: &[u8], word: &'w [u8]) -> Option<&'w [u8]>
    ensures { option_copied result ≡ spec.value_text name.now word.now }
{
    match behind(word, name) {
        Some(rest) => behind_mark(rest),
        None => None,
    }
}

/// The lower of two faults of values, the first of which may be none.
fn lower(fault: Option<LineFault>, other: LineFault) -> LineFault
    ensures { result ≡ spec.lower_of fault other }
{
    match fault {
        Some(LineFault::NotAValue) => LineFault::NotAValue,
        _ => other,
    }
}

/// Keeps the number of one field more at its place, or the lower fault.
fn keep(
    values: &mut [i64],
    fault: &mut Option<LineFault>,
    place: usize,
    read: Result<i64, LineFault>,
)
    requires { place < length values.old }
    ensures { spec.kept fault.new (take (place + 1) values.new)
        ≡ spec.with_value (spec.kept fault.old (take place values.old)) read }
{
    match read {
        Ok(number) => values[place] = number,
        Err(other) => *fault = Some(lower(*fault, other)),
    }
}

/// The field at a place.
fn nth<'f>(fields: &[Field<'f>], place: usize) -> Field<'f>
    requires { place < length fields.now }
    ensures { result ≡ get_or fields.now place result }
{
    fields[place]
}

/// Reads a text by the type of this number.
#[inline(never)]
#[tactic(auto, using(std::proofs::lemmas::List::get_or_default))]
fn read_value(types: &[ValueType<'_>], kind: usize, text: &[u8]) -> Result<i64, LineFault>
    requires { kind < length types.now }
    ensures { result ≡ spec.read_value (get_or types.now kind no_type) text.now }
{
    types[kind].read(text)
}

/// Reads one field more from its word, keeps its number, and gives the text behind.
fn read_word<'w>(
    types: &[ValueType<'_>],
    field: Field<'_>,
    word: &[u8],
    more: &'w [u8],
    values: &mut [i64],
    fault: &mut Option<LineFault>,
    place: usize,
) -> Result<&'w [u8], LineFault>
    requires kind { field.kind < length types.now }
    requires room { place < length values.old }
    ensures { MatchResult result
        (λ left. (fs : List TypedField) →
        spec.field_numbers (field_of types.now field.entry ∷ fs) (word.now ∷ words more.now)
        (spec.kept fault.old (take place values.old))
        ≡ spec.field_numbers fs (words left.now) (spec.kept fault.new (take (place + 1) values.new)))
        (λ e. (fs : List TypedField) →
        spec.field_numbers (field_of types.now field.entry ∷ fs) (word.now ∷ words more.now)
        (spec.kept fault.old (take place values.old)) ≡ Err e) }
{
    match value_text(field.name, word) {
        Some(text) => {
            keep(values, fault, place, read_value(types, field.kind, text));
            Ok(more)
        }
        None => Err(LineFault::WrongField),
    }
}

/// Reads one field more from the text that is left, keeps its number, and gives the text behind.
fn read_field<'w>(
    types: &[ValueType<'_>],
    field: Field<'_>,
    rest: &'w [u8],
    values: &mut [i64],
    fault: &mut Option<LineFault>,
    place: usize,
) -> Result<&'w [u8], LineFault>
    requires kind { field.kind < length types.now }
    requires room { place < length values.old }
    ensures { MatchResult result
        (λ left. (fs : List TypedField) →
        spec.field_numbers (field_of types.now field.entry ∷ fs) (words rest.now)
        (spec.kept fault.old (take place values.old))
        ≡ spec.field_numbers fs (words left.now) (spec.kept fault.new (take (place + 1) values.new)))
        (λ e. (fs : List TypedField) →
        spec.field_numbers (field_of types.now field.entry ∷ fs) (words rest.now)
        (spec.kept fault.old (take place values.old)) ≡ Err e) }
{
    match first_word(rest) {
        Some((word, more)) => read_word(types, field, word, more, values, fault, place),
        None => Err(LineFault::WrongField),
    }
}

/// Reads the fields of a line from the words behind the first.
pub fn read_fields(
    types: &[ValueType<'_>],
    fields: &[Field<'_>],
    text: &[u8],
    values: &mut [i64],
) -> Result<(), LineFault>
    requires within { AreWithin (length types.now) fields.now }
    requires room { length fields.now ≤ length values.old }
    ensures { MatchResult result
        (λ _. spec.field_numbers (map (field_of types.now) fields.now) (words text.now) (Ok [])
        ≡ Ok (take (length fields.now) values.new))
        (λ fault. spec.field_numbers (map (field_of types.now) fields.now) (words text.now) (Ok [])
        ≡ Err fault) }
{
    let mut fault = None;
    let mut rest = text;
    for place in 0..fields.len() {
        let field = nth(fields, place);
        match read_field(types, field, rest, values, &mut fault, place) {
            Ok(more) => rest = more,
            Err(error) => return Err(error),
        }
    }
    if has_word(rest) {
        return Err(LineFault::ExtraWord);
    }
    match fault {
        None => Ok(()),
        Some(fault) => Err(fault),
    }
}
