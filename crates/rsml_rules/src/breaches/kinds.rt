//! The kinds of sums, and which of them may be compared (S7).
ghost use Rattle.std.specs.Prelude.{◌≡◌, IfOk, map};
ghost use Rattle.std.specs.List.{list_all};
ghost use Rattle.std.specs.Option.{option_map};
ghost use Rattle.rsml_syntax.specs.rules.Kinds as spec;
ghost use Rattle.rsml_rules.specs.breaches.Settings as settings;
ghost use Rattle.rsml_rules.specs.breaches.Settings.{kind_of as seen, first_of};

use crate::breaches::setting::Setting;
use rsml_names::{Globals, Known};
use rsml_syntax::{Case, Decl, Mention, NoMemory, Operand, Relation, Simple, Sum, Term, Text};
use std::alloc::Global;

/// Numbers, or the values of an enumeration.
#[derive(Clone, Copy)]
pub enum Kind<'a> {
    Numbers,
    Values(&'a Text),
}

/// The kind of the first case of a function.
#[derive(Clone, Copy, Drop)]
pub enum FirstKind<'a> {
    /// There is no case.
    NoCase,
    /// That of the case, if it has one.
    Case(Option<Kind<'a>>),
}

/// Whether two kinds are one.
fn is_same_kind(a: &Kind<'_>, b: &Kind<'_>) -> bool
    ensures { result ≡ spec.same_kind (seen a.now) (seen b.now) }
{
    match (a, b) {
        (Kind::Numbers, Kind::Numbers) => true,
        (Kind::Values(a), Kind::Values(b)) => a.bytes() == b.bytes(),
        _ => false,
    }
}

fn is_numbers(kind: &Option<Kind<'_>>) -> bool
    ensures { result ≡ spec.is_numbers (option_map seen kind.now) }
{
    matches!(kind, Some(Kind::Numbers))
}

/// The kind of an input of this type.
fn type_kind<'a>(known: &Known<'a>) -> Option<Kind<'a>>
    ensures { option_map seen result ≡ spec.type_kind known.now }
{
    match known.decl {
        Decl::Range { .. } => Some(Kind::Numbers),
        Decl::Enumeration { name, .. } => Some(Kind::Values(name)),
        _ => None,
    }
}

/// The kind of a constant, of a value of an enumeration, of an input.
fn kind_of<'a>(globals: &Globals<'a>, known: &Known<'a>) -> Option<Kind<'a>>
    ensures { option_map seen result ≡ spec.kind_of globals.now known.now }
{
    match known.decl {
        Decl::Constant { .. } => Some(Kind::Numbers),
        Decl::Enumeration { name, .. } => Some(Kind::Values(name)),
        Decl::Input { kind, .. } => match globals.meaning(kind) {
            Some(found) => type_kind(found),
            None => None,
        },
        _ => None,
    }
}

fn name_kind<'a>(globals: &Globals<'a>, name: &Text) -> Option<Kind<'a>>
    ensures { option_map seen result ≡ spec.name_kind globals.now name.now }
{
    match globals.meaning(name) {
        Some(known) => kind_of(globals, known),
        None => None,
    }
}

fn operand_kind<'a>(globals: &Globals<'a>, operand: &Operand) -> Option<Kind<'a>>
    ensures { option_map seen result ≡ spec.operand_kind globals.now operand.now }
{
    match operand {
        Operand::Number(_) => Some(Kind::Numbers),
        Operand::Mention(mention) => name_kind(globals, &mention.name),
        Operand::Previous(mention) => name_kind(globals, &mention.name),
    }
}

/// The kind of one operand without a minus.
fn single_kind<'a>(globals: &Globals<'a>, terms: &[Term]) -> Option<Kind<'a>>
    ensures { option_map seen result ≡ spec.single_kind globals.now terms.now }
{
    match terms {
        [term] => {
            if term.minus {
                None
            } else {
                operand_kind(globals, &term.operand)
            }
        }
        _ => None,
    }
}

fn are_numbers(globals: &Globals<'_>, terms: &[Term]) -> bool
    ensures { result
        ≡ list_all (λ t. spec.is_numbers (spec.operand_kind globals.now t.operand)) terms.now }
{
    terms
        .iter()
        .all(|term| is_numbers(&operand_kind(globals, &term.operand)))
}

/// Numbers where all operands are, else the kind of the one operand.
pub fn sum_kind<'a>(globals: &Globals<'a>, sum: &Sum) -> Option<Kind<'a>>
    ensures { option_map seen result ≡ spec.sum_kind globals.now sum.now }
{
    let terms = sum.terms.as_slice();
    if are_numbers(globals, terms) {
        Some(Kind::Numbers)
    } else {
        single_kind(globals, terms)
    }
}

/// Whether a sum has a kind.
pub fn has_kind(globals: &Globals<'_>, sum: &Sum) -> bool
    ensures { result ≡ spec.has_kind globals.now sum.now }
{
    sum_kind(globals, sum).is_some()
}

/// Whether there are two kinds, and they are one.
pub fn are_alike(a: &Option<Kind<'_>>, b: &Option<Kind<'_>>) -> bool
    ensures { result ≡ spec.are_alike (option_map seen a.now) (option_map seen b.now) }
{
    match (a, b) {
        (Some(a), Some(b)) => is_same_kind(a, b),
        _ => false,
    }
}

fn is_equation(relation: Relation) -> bool
    ensures { result ≡ spec.is_equation relation }
{
    matches!(relation, Relation::Equal | Relation::NotEqual)
}

/// Whether two kinds may be compared so.
fn may_compare(a: &Option<Kind<'_>>, relation: Relation, b: &Option<Kind<'_>>) -> bool
    ensures { result ≡ spec.may_compare (option_map seen a.now) relation (option_map seen b.now) }
{
    are_alike(a, b) && (is_numbers(a) || is_equation(relation))
}

/// The cases of a function; none of another.
fn cases_of<'a>(known: &Known<'a>) -> &'a [Case]
    ensures { result.now ≡ spec.cases_of known.now }
{
    match known.decl {
        Decl::Function { cases, .. } => cases.as_slice(),
        _ => &[],
    }
}

fn first_kind<'a>(globals: &Globals<'a>, cases: &[Case]) -> FirstKind<'a>
    ensures { first_of result ≡ settings.first_kind globals.now cases.now }
{
    match cases {
        [] => FirstKind::NoCase,
        [first, ..] => FirstKind::Case(sum_kind(globals, &first.value)),
    }
}

/// For each global name the kind of its first case, where it is that of a function.
pub fn first_kinds<'a>(alloc: Global, globals: &Globals<'a>) -> Result<Vec<FirstKind<'a>>, NoMemory>
    ensures { IfOk result (λ kinds. map first_of kinds.items ≡ settings.first_kinds globals.now) }
{
    let mut kinds = Vec::new(alloc);
    for known in globals.all() {
        kinds.push(first_kind(globals, cases_of(known)))?;
    }
    Ok(kinds)
}

/// Whether the kinds of a compared function and of a sum are right.
fn function_may_compare(
    setting: &Setting<'_, '_>,
    function: &Mention,
    relation: Relation,
    right: &Option<Kind<'_>>,
) -> bool
    ensures { result ≡ spec.function_may_compare setting.now.tables.globals
        (spec.function_cases setting.now.tables.globals function.now.name)
        relation (option_map seen right.now) }
{
    match setting.first_kind_of(&function.name) {
        FirstKind::NoCase => right.is_some(),
        FirstKind::Case(kind) => may_compare(&kind, relation, right),
    }
}

/// Whether the kinds in a phrase are right.
pub fn kinds_match(setting: &Setting<'_, '_>, simple: &Simple) -> bool
    ensures { result ≡ spec.kinds_match setting.now.tables.globals simple.now }
{
    let globals = &setting.tables().globals;
    match simple {
        Simple::In(_) => true,
        Simple::Macro(_) => true,
        Simple::Compare {
            left,
            relation,
            right,
        } => may_compare(
            &sum_kind(globals, left),
            *relation,
            &sum_kind(globals, right),
        ),
        Simple::Function {
            function,
            relation,
            right,
        } => function_may_compare(setting, function, *relation, &sum_kind(globals, right)),
    }
}

/// Whether each case is of this kind.
fn are_of_kind(globals: &Globals<'_>, kind: &Option<Kind<'_>>, cases: &[Case]) -> bool
    ensures { result ≡ list_all
        (λ c. spec.are_alike (option_map seen kind.now) (spec.sum_kind globals.now c.value)) cases.now }
{
    cases
        .iter()
        .all(|case| are_alike(kind, &sum_kind(globals, &case.value)))
}

/// Whether the cases of a function are of one kind.
pub fn cases_alike(globals: &Globals<'_>, cases: &[Case]) -> bool
    ensures { result ≡ spec.cases_alike globals.now cases.now }
{
    match cases {
        [] => true,
        [first, rest @ ..] => are_of_kind(globals, &sum_kind(globals, &first.value), rest),
    }
}
