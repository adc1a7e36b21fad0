ghost use Rattle.std.specs.Prelude.{◌≡◌, ◌∷◌, []};
ghost use Rattle.std.specs.Option.{option_map_or};
ghost use Rattle.std.specs.Cmp.Lexicographic.{pointwise};
ghost use Rattle.spec_frames.specs.helpers.Sameness as spec;

use rsml_syntax::{Case, Decl, SendCase};

/// Whether cases of functions have the same values.
fn same_cases(one: &[Case], two: &[Case]) -> bool
    ensures { result ≡ pointwise spec.same_case one.now two.now }
{
    let mut others = two;
    for case in one {
        let Some((other, after)) = others.split_first() else {
            return false;
        };
        if case.value != other.value {
            return false;
        }
        others = after;
    }
    others.is_empty()
}

/// Whether cases of sends have the same triggers and the same answers.
fn same_send_cases(one: &[SendCase], two: &[SendCase]) -> bool
    ensures { result ≡ pointwise spec.same_send_case one.now two.now }
{
    let mut others = two;
    for case in one {
        let Some((other, after)) = others.split_first() else {
            return false;
        };
        if case.trigger != other.trigger || case.answer != other.answer {
            return false;
        }
        others = after;
    }
    others.is_empty()
}

/// Whether two declarations are the same but for their guards. A macro is the same as none.
fn same_declaration(one: &Decl, two: &Decl) -> bool
    ensures { result ≡ spec.same_decl one.now two.now }
{
    match (one, two) {
        (
            Decl::Enumeration { name, values },
            Decl::Enumeration {
                name: other,
                values: others,
            },
        ) => name == other && values == others,
        (
            Decl::Range { name, low, high },
            Decl::Range {
                name: other,
                low: from,
                high: to,
            },
        ) => name == other && low == from && high == to,
        (
            Decl::Constant { name, value },
            Decl::Constant {
                name: other,
                value: number,
            },
        ) => name == other && value == number,
        (
            Decl::Input {
                name,
                size,
                kind,
                initial,
            },
            Decl::Input {
                name: other,
                size: many,
                kind: sort,
                initial: first,
            },
        ) => name == other && size == many && kind == sort && initial == first,
        (
            Decl::Event { name, size },
            Decl::Event {
                name: other,
                size: many,
            },
        ) => name == other && size == many,
        (
            Decl::Function { name, size, cases },
            Decl::Function {
                name: other,
                size: many,
                cases: others,
            },
        ) => name == other && size == many && same_cases(cases.as_slice(), others.as_slice()),
        (
            Decl::Receive {
                name,
                size,
                inputs,
                raised,
            },
            Decl::Receive {
                name: other,
                size: many,
                inputs: others,
                raised: event,
            },
        ) => name == other && size == many && inputs == others && raised == event,
        (
            Decl::Send {
                name,
                size,
                fields,
                cases,
            },
            Decl::Send {
                name: other,
                size: many,
                fields: names,
                cases: others,
            },
        ) => {
            name == other
                && size == many
                && fields == names
                && same_send_cases(cases.as_slice(), others.as_slice())
        }
        _ => false,
    }
}

/// Whether a declaration is of a macro.
fn is_macro(decl: &Decl) -> bool
    ensures { result ≡ spec.is_macro decl.now }
{
    matches!(decl, Decl::Macro { .. })
}

/// The first declaration that is of no macro, and those after it.
fn first_kept(decls: &[Decl]) -> Option<(&Decl, &[Decl])>
    ensures { spec.kept decls.now ≡ option_map_or (λ p. p.0.now ∷ spec.kept p.1.now) result [] }
{
    let mut rest = decls;
    while let Some((decl, after)) = rest.split_first() {
        if !is_macro(decl) {
            return Some((decl, after));
        }
        rest = after;
    }
    None
}

/// Whether declarations are the same but for macros and guards.
pub fn same_declarations(one: &[Decl], two: &[Decl]) -> bool
    ensures { result ≡ pointwise spec.same_decl (spec.kept one.now) (spec.kept two.now) }
{
    let mut others = two;
    for decl in one {
        if !is_macro(decl) {
            match first_kept(others) {
                Some((other, after)) => {
                    if !same_declaration(decl, other) {
                        return false;
                    }
                    others = after;
                }
                None => return false,
            }
        }
    }
    first_kept(others).is_none()
}
