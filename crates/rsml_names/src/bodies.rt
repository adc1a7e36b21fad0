//! What a state's body is made of.
#![tactic(auto, using(crate::proofs::Children::children_of_all, crate::proofs::Children::children_of_one))]

ghost use Rattle.std.specs.Prelude.{◌≡◌};
ghost use Rattle.std.specs.Option.{option_copied};
ghost use Rattle.rsml_syntax.specs.grammar.Parts as parts;

use rsml_syntax::{Body, Bus, StateDecl, Text, Transition};

/// The children of a state; none of a basic one.
pub fn children_of(body: &Body) -> &[StateDecl]
    ensures { result.now ≡ parts.children_of body.now }
{
    match body {
        Body::Basic => &[],
        Body::One { children, .. } => children.as_slice(),
        Body::All { children } => children.as_slice(),
    }
}

/// The buses of a `one` state; none of another.
pub fn buses_of(body: &Body) -> &[Bus]
    ensures { result.now ≡ parts.buses_of body.now }
{
    match body {
        Body::One { buses, .. } => buses.as_slice(),
        _ => &[],
    }
}

/// The transitions of a `one` state; none of another.
pub fn transitions_of(body: &Body) -> &[Transition]
    ensures { result.now ≡ parts.transitions_of body.now }
{
    match body {
        Body::One { transitions, .. } => transitions.as_slice(),
        _ => &[],
    }
}

/// The default child of a `one` state.
pub fn default_of(body: &Body) -> Option<&Text>
    ensures { option_copied result ≡ parts.default_of body.now }
{
    match body {
        Body::One { first, .. } => Some(first),
        _ => None,
    }
}

pub fn is_basic(body: &Body) -> bool
    ensures { result ≡ parts.is_basic body.now }
{
    matches!(body, Body::Basic)
}
