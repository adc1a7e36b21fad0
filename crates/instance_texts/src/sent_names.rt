//! The names of the values that a send sends, where they are of an enumeration.
ghost use Rattle.std.specs.Prelude.{◌≡◌, [], ◌∷◌, Some, None};
ghost use Rattle.rsml_syntax.specs.rules.Kinds as kinds;
ghost use Rattle.rsml_meaning.specs.Trace.{names_of_kind, value_kind};

use rsml_names::{Globals, Known, values_of};
use rsml_syntax::{Case, Decl, Operand, Sum, Term, Text, Value};

// The values of the enumeration of a name.
fn enumeration_names<'a>(globals: &Globals<'a>, name: &Text) -> &'a [Text]
    ensures { result.now ≡ names_of_kind globals.now (Some (kinds.Values name.now)) }
{
    match globals.meaning(name) {
        Some(known) => values_of(known.decl),
        None => &[],
    }
}

// The names of the values of a type.
fn type_names<'a>(globals: &Globals<'a>, known: &Known<'a>) -> &'a [Text]
    ensures { result.now ≡ names_of_kind globals.now (kinds.type_kind known.now) }
{
    match known.decl {
        Decl::Enumeration { name, .. } => enumeration_names(globals, name),
        _ => &[],
    }
}

// The names of the values of what a global name is.
fn known_names<'a>(globals: &Globals<'a>, known: &Known<'a>) -> &'a [Text]
    ensures { result.now ≡ names_of_kind globals.now (kinds.kind_of globals.now known.now) }
{
    match known.decl {
        Decl::Enumeration { name, .. } => enumeration_names(globals, name),
        Decl::Input { kind, .. } => match globals.meaning(kind) {
            Some(found) => type_names(globals, found),
            None => &[],
        },
        _ => &[],
    }
}

// The names of the values of a global name.
fn names_of_name<'a>(globals: &Globals<'a>, name: &Text) -> &'a [Text]
    ensures { result.now ≡ names_of_kind globals.now (kinds.name_kind globals.now name.now) }
{
    match globals.meaning(name) {
        Some(known) => known_names(globals, known),
        None => &[],
    }
}

// The names of the values of an operand.
fn operand_names<'a>(globals: &Globals<'a>, operand: &Operand) -> &'a [Text]
    ensures { result.now ≡ names_of_kind globals.now (kinds.operand_kind globals.now operand.now) }
{
    match operand {
        Operand::Number(_) => &[],
        Operand::Mention(mention) => names_of_name(globals, &mention.name),
        Operand::Previous(mention) => names_of_name(globals, &mention.name),
    }
}

// The names of the values of one operand without a minus.
fn single_names<'a>(globals: &Globals<'a>, terms: &[Term]) -> &'a [Text]
    ensures { result.now ≡ names_of_kind globals.now (kinds.single_kind globals.now terms.now) }
{
    match terms {
        [term] => {
            if term.minus {
                &[]
            } else {
                operand_names(globals, &term.operand)
            }
        }
        _ => &[],
    }
}

// The names of the values of a sum.
fn sum_names<'a>(globals: &Globals<'a>, sum: &Sum) -> &'a [Text]
    ensures { result.now ≡ names_of_kind globals.now (kinds.sum_kind globals.now sum.now) }
{
    single_names(globals, sum.terms.as_slice())
}

// The cases of a function; none of another.
fn cases_of<'a>(known: &Known<'a>) -> &'a [Case]
    ensures { result.now ≡ kinds.cases_of known.now }
{
    match known.decl {
        Decl::Function { cases, .. } => cases.as_slice(),
        _ => &[],
    }
}

// The cases of the function of a name.
fn function_cases<'a>(globals: &Globals<'a>, name: &Text) -> &'a [Case]
    ensures { result.now ≡ kinds.function_cases globals.now name.now }
{
    match globals.meaning(name) {
        Some(known) => cases_of(known),
        None => &[],
    }
}

// The names of the values of the first of these cases.
fn first_names<'a>(globals: &Globals<'a>, cases: &[Case]) -> &'a [Text]
    ensures { result.now ≡ names_of_kind globals.now (elim cases.now [ [] ↦ None | c ∷ cs ↦ kinds.sum_kind globals.now c.value ]) }
{
    match cases {
        [] => &[],
        [first, ..] => sum_names(globals, &first.value),
    }
}

/// The names of the values of what a field gets. A function has the kind of its first case.
pub fn value_names<'a>(globals: &Globals<'a>, value: &Value) -> &'a [Text]
    ensures { result.now ≡ names_of_kind globals.now (value_kind globals.now value.now) }
{
    match value {
        Value::Sum(sum) => sum_names(globals, sum),
        Value::Function(function) => {
            first_names(globals, function_cases(globals, &function.name))
        }
    }
}
