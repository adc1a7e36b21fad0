//! Kinds of sums: numbers, or the values of an enumeration.

use rsml_base::Text;
use rsml_names::{Globals, Known};
use rsml_syntax::{Decl, Mention, Operand, Relation, Simple, Sum, Term};

#[derive(Clone, Copy)]
pub enum Kind<'a> {
    Numbers,
    Values(&'a Text),
    /// The sum has none.
    Mixed,
    /// A name in it stands for nothing that has a kind, which is told at the name.
    Unknown,
}

/// The kind of an input of this type.
fn type_kind<'a>(known: &Known<'a>) -> Kind<'a> {
    match known.decl {
        Decl::Range { .. } => Kind::Numbers,
        Decl::Enumeration { name, .. } if known.value.is_none() => Kind::Values(name),
        _ => Kind::Unknown,
    }
}

fn known_kind<'a>(globals: &Globals<'a>, known: &Known<'a>) -> Kind<'a> {
    match known.decl {
        Decl::Constant { .. } => Kind::Numbers,
        Decl::Enumeration { name, .. } if known.value.is_some() => Kind::Values(name),
        Decl::Input { kind, .. } => match globals.meaning(kind) {
            Some(found) => type_kind(found),
            None => Kind::Unknown,
        },
        _ => Kind::Unknown,
    }
}

/// The kind of what stands behind `previous`, where it is an input.
fn input_kind<'a>(globals: &Globals<'a>, known: &Known<'a>) -> Kind<'a> {
    match known.decl {
        Decl::Input { .. } => known_kind(globals, known),
        _ => Kind::Unknown,
    }
}

fn operand_kind<'a>(globals: &Globals<'a>, operand: &Operand) -> Kind<'a> {
    let (mention, is_previous) = match operand {
        Operand::Number(_) => return Kind::Numbers,
        Operand::Mention(mention) => (mention, false),
        Operand::Previous(mention) => (mention, true),
    };
    match globals.meaning(&mention.name) {
        Some(known) if is_previous => input_kind(globals, known),
        Some(known) => known_kind(globals, known),
        None => Kind::Unknown,
    }
}

pub fn is_unknown(kind: Kind<'_>) -> bool {
    matches!(kind, Kind::Unknown)
}

/// The kind of a sum of several parts.
fn joint<'a>(left: Kind<'a>, right: Kind<'a>) -> Kind<'a> {
    match (left, right) {
        (Kind::Unknown, _) | (_, Kind::Unknown) => Kind::Unknown,
        (Kind::Numbers, Kind::Numbers) => Kind::Numbers,
        _ => Kind::Mixed,
    }
}

/// The kind of terms of a sum with several or with a minus.
fn joint_kind<'a>(globals: &Globals<'a>, terms: &[Term]) -> Kind<'a> {
    let mut kind = Kind::Numbers;
    for term in terms {
        kind = joint(kind, operand_kind(globals, &term.operand));
    }
    kind
}

/// The kind of a sum.
pub fn sum_kind<'a>(globals: &Globals<'a>, sum: &Sum) -> Kind<'a> {
    match sum.terms.as_slice() {
        [term] if !term.minus => operand_kind(globals, &term.operand),
        terms => joint_kind(globals, terms),
    }
}

/// Whether two sums of these kinds may be compared by `=`.
pub fn are_alike(left: Kind<'_>, right: Kind<'_>) -> bool {
    match (left, right) {
        (Kind::Numbers, Kind::Numbers) => true,
        (Kind::Values(left), Kind::Values(right)) => left.bytes() == right.bytes(),
        _ => false,
    }
}

/// What is wrong with a comparison.
#[derive(Clone, Copy)]
pub enum KindFault<'a> {
    /// A side is a sum without kind.
    Mixed,
    /// The sides are of two kinds.
    Unlike { left: Kind<'a>, right: Kind<'a> },
    /// Values of an enumeration are compared by an order.
    Ordered(&'a Text),
}

fn is_equation(relation: Relation) -> bool {
    matches!(relation, Relation::Equal | Relation::NotEqual)
}

/// What is wrong where sums of two kinds are compared, if something is.
fn compared<'a>(left: Kind<'a>, relation: Relation, right: Kind<'a>) -> Option<KindFault<'a>> {
    if is_unknown(left) || is_unknown(right) {
        return None;
    }
    if matches!(left, Kind::Mixed) || matches!(right, Kind::Mixed) {
        return Some(KindFault::Mixed);
    }
    if !are_alike(left, right) {
        return Some(KindFault::Unlike { left, right });
    }
    match left {
        Kind::Values(name) if !is_equation(relation) => Some(KindFault::Ordered(name)),
        _ => None,
    }
}

/// The kind of a function, by its first case. Where that has none, it is told at the case.
fn function_kind<'a>(globals: &Globals<'a>, mention: &Mention) -> Option<Kind<'a>> {
    let known = globals.meaning(&mention.name)?;
    match known.decl {
        Decl::Function { cases, .. } => {
            let first = cases.as_slice().first()?;
            match sum_kind(globals, &first.value) {
                Kind::Mixed => Some(Kind::Unknown),
                kind => Some(kind),
            }
        }
        _ => None,
    }
}

/// What is wrong with the kinds in a phrase, if something is.
pub fn kind_fault<'a>(globals: &Globals<'a>, simple: &Simple) -> Option<KindFault<'a>> {
    match simple {
        Simple::In(_) => None,
        Simple::Macro(_) => None,
        Simple::Compare {
            left,
            relation,
            right,
        } => compared(sum_kind(globals, left), *relation, sum_kind(globals, right)),
        Simple::Function {
            function,
            relation,
            right,
        } => match function_kind(globals, function) {
            Some(kind) => compared(kind, *relation, sum_kind(globals, right)),
            None => match sum_kind(globals, right) {
                Kind::Mixed => Some(KindFault::Mixed),
                _ => None,
            },
        },
    }
}
