//! Declarations: S1, S4, S5, S7 and S15 at their names, and what they use.
ghost use Rattle.std.specs.Prelude.{◌≡◌, ◌+◌, ◌<◌, ◌^◌, length, true, OnOk};
ghost use Rattle.std.specs.List.{list_all};
ghost use Rattle.std.specs.Option.{option_map_or};
ghost use Rattle.rsml_syntax.specs.rules.Globals as known;
ghost use Rattle.rsml_syntax.specs.rules.Globals.{meaning};
ghost use Rattle.rsml_syntax.specs.rules.Declarations as declarations;
ghost use Rattle.rsml_syntax.specs.grammar.Written as written;
ghost use Rattle.rsml_rules.specs.breaches.Noting.{noted};
ghost use Rattle.rsml_rules.specs.breaches.Owned as owned;

use crate::breaches::contents::{
    each_case, each_send_case, initial_used, mentioned_again, repeats,
};
use crate::breaches::kinds::cases_alike;
use crate::breaches::owner::Owner;
use crate::breaches::phrases::rows_used;
use crate::breaches::setting::Setting;
use crate::breaches::uses::{each_mentioned, mentioned, sized, used};
use crate::breaches::worst::Worst;
use rsml_names::{
    Globals, Known, NameTables, Scope, name_of, number_of, scope_at, size_of, values_of,
};
use rsml_syntax::{Answer, Decl, Initial, NoMemory, SendCase, Signed, Text, Want};
use std::alloc::Global;

/// Whether there is a first place, and it is below this one.
fn is_below(first: Option<usize>, place: usize) -> bool
    ensures { result ≡ declarations.is_below first place }
{
    match first {
        Some(first) => first < place,
        None => false,
    }
}

/// Whether a name was declared before this place, or is that of a variable before it.
fn is_taken(tables: &NameTables<'_>, place: usize, name: &Text) -> bool
    ensures { result ≡ declarations.is_taken tables.now place name.now }
{
    is_below(tables.globals.place(name), place) || is_below(tables.first_bound(name), place)
}

/// Global names, the first of which has this place.
fn declared_again<'a>(
    tables: &NameTables<'a>,
    place: usize,
    names: &'a [Text],
    worst: &mut Worst<'a>,
)
    requires { place + length names.now < 2 ^ 64 }
    ensures { worst.new ≡ noted worst.old (declarations.declared_again tables.now place names.now) }
{
    let mut at = place;
    for name in names {
        worst.note(1, name, is_taken(tables, at, name));
        at += 1;
    }
}

/// Whether a number is from the low end of a range to its high end.
fn is_between(low: &Signed, high: &Signed, number: i64) -> bool
    ensures { result ≡ declarations.is_between low.now high.now number }
{
    number_of(low) <= number && number <= number_of(high)
}

/// Whether it is a value of this enumeration.
fn is_value_of(enumeration: &Text, known: &Known<'_>) -> bool
    ensures { result ≡ declarations.is_value_of enumeration.now known.now }
{
    known.value.is_some() && name_of(known.decl).bytes() == enumeration.bytes()
}

/// Whether an initial value is of a type.
fn is_initial(globals: &Globals<'_>, initial: &Initial, known: &Known<'_>) -> bool
    ensures { result ≡ declarations.is_initial globals.now initial.now known.now }
{
    match (known.decl, initial) {
        (Decl::Range { low, high, .. }, Initial::Number(number)) => {
            is_between(low, high, number_of(number))
        }
        (Decl::Range { low, high, .. }, Initial::Name(name)) => match globals.constant(name) {
            Some(number) => is_between(low, high, number),
            None => false,
        },
        (Decl::Enumeration { .. }, Initial::Number(_)) => false,
        (
            Decl::Enumeration {
                name: enumeration,
                ..
            },
            Initial::Name(name),
        ) => {
            match globals.meaning(name) {
                Some(known) => is_value_of(enumeration, known),
                None => false,
            }
        }
        _ => true,
    }
}

/// Whether the initial value of an input of this type is right, as far as the type is declared.
fn has_initial(globals: &Globals<'_>, kind: &Text, initial: &Initial) -> bool
    ensures { result ≡ option_map_or (declarations.is_initial globals.now initial.now)
        (meaning globals.now kind.now) true }
{
    match globals.meaning(kind) {
        Some(known) => is_initial(globals, initial, known),
        None => true,
    }
}

/// Whether an answer gives this many values.
fn gives(fields: usize, answer: &Answer) -> bool
    ensures { result ≡ declarations.gives fields answer.now }
{
    match answer {
        Answer::Quiet => true,
        Answer::Values(values) => values.len() == fields,
    }
}

/// Whether each answer gives a value for each field.
fn each_gives(fields: usize, cases: &[SendCase]) -> bool
    ensures { result ≡ list_all (λ c. declarations.gives fields c.answer) cases.now }
{
    cases.iter().all(|case| gives(fields, &case.answer))
}

/// S4 at a range, S7 at an input, S15 at a function or a send.
fn own_breaches<'a>(globals: &Globals<'a>, decl: &'a Decl, worst: &mut Worst<'a>)
    ensures { worst.new ≡ noted worst.old (declarations.own_breaches globals.now decl.now) }
{
    match decl {
        Decl::Range { name, low, high } => {
            worst.note(4, name, number_of(high) < number_of(low));
        }
        Decl::Input {
            name,
            kind,
            initial,
            ..
        } => {
            worst.note(7, name, !has_initial(globals, kind, initial));
        }
        Decl::Function { name, cases, .. } => {
            let right = !cases.is_empty() && cases_alike(globals, cases.as_slice());
            worst.note(15, name, !right);
        }
        Decl::Send {
            name,
            fields,
            cases,
            ..
        } => {
            let right = each_gives(fields.len(), cases.as_slice());
            worst.note(15, name, !right);
        }
        _ => {}
    }
}

/// The tables and sums of a declaration.
fn owner_of(setting: &Setting<'_, '_>, decl: &Decl) -> Owner
    ensures { result ≡ owned.with_all setting.now.tables.globals owned.bare
        (written.guards_of decl.now) (written.sums_of decl.now) }
{
    let owner = Owner::new();
    match decl {
        Decl::Macro { rows, .. } => owner.with_table(setting, rows.as_slice()),
        Decl::Function { cases, .. } => owner.with_cases(setting, cases.as_slice()),
        Decl::Send { cases, .. } => owner.with_send_cases(setting, cases.as_slice()),
        _ => owner,
    }
}

/// What stands after a declaration's name and size.
fn contents_used<'a>(
    alloc: Global,
    setting: &Setting<'a, '_>,
    scope: &Scope<'a>,
    decl: &'a Decl,
    worst: &mut Worst<'a>,
) -> Result<(), NoMemory>
    ensures { OnOk result (worst.new ≡ noted worst.old
        (declarations.contents_used setting.now.tables scope.now decl.now)) }
{
    let tables = setting.tables();
    match decl {
        Decl::Input { kind, initial, .. } => {
            used(tables, scope, Want::Type, kind, worst);
            initial_used(tables, scope, initial, worst);
        }
        Decl::Macro { rows, .. } => rows_used(setting, scope, rows.as_slice(), worst),
        Decl::Function { cases, .. } => each_case(setting, scope, cases.as_slice(), worst),
        Decl::Receive { inputs, raised, .. } => {
            each_mentioned(tables, scope, Want::Input, inputs.as_slice(), worst);
            mentioned_again(alloc, 14, inputs.as_slice(), worst)?;
            mentioned(tables, scope, Want::Event, raised, worst);
        }
        Decl::Send { fields, cases, .. } => {
            repeats(alloc, 1, fields.as_slice(), worst)?;
            each_send_case(setting, scope, cases.as_slice(), worst);
        }
        _ => {}
    }
    Ok(())
}

/// A declaration whose name has this place among the global names.
pub fn declaration<'a>(
    alloc: Global,
    setting: &Setting<'a, '_>,
    place: usize,
    decl: &'a Decl,
    worst: &mut Worst<'a>,
) -> Result<(), NoMemory>
    requires { place + length (known.names_of decl.now) < 2 ^ 64 }
    ensures { OnOk result (worst.new ≡ noted worst.old
        (declarations.declaration setting.now.tables place decl.now)) }
{
    let tables = setting.tables();
    let name = name_of(decl);
    let size = size_of(decl);
    worst.note(1, name, is_taken(tables, place, name));
    declared_again(tables, place + 1, values_of(decl), worst);
    own_breaches(&tables.globals, decl, worst);
    owner_of(setting, decl).note(name, worst);
    let scope = scope_at(tables, place, size);
    sized(tables, &scope, name, size, worst);
    contents_used(alloc, setting, &scope, decl, worst)
}
