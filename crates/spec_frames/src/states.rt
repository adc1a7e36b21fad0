ghost use Rattle.std.specs.Prelude.{◌≡◌};
ghost use Rattle.std.specs.Cmp.Lexicographic.{pointwise};
ghost use Rattle.spec_frames.specs.helpers.Sameness as spec;

use rsml_syntax::{Body, StateDecl, Transition};

/// Whether two transitions are the same but for their guards.
fn same_transition(one: &Transition, two: &Transition) -> bool
    ensures { result ≡ spec.same_transition one.now two.now }
{
    one.source == two.source
        && one.target == two.target
        && one.trigger == two.trigger
        && one.raises == two.raises
}

/// Whether transitions are the same but for their guards.
fn same_transitions(one: &[Transition], two: &[Transition]) -> bool
    ensures { result ≡ pointwise spec.same_transition one.now two.now }
{
    let mut others = two;
    for transition in one {
        let Some((other, after)) = others.split_first() else {
            return false;
        };
        if !same_transition(transition, other) {
            return false;
        }
        others = after;
    }
    others.is_empty()
}

/// Whether two bodies are the same but for the guards in them.
#[cycle(walk)]
#[tactic(auto, using(crate::proofs::BodyLemmas::both_all, crate::proofs::BodyLemmas::both_one))]
pub fn same_body(one: &Body, two: &Body) -> bool
    ensures { result ≡ spec.same_body one.now two.now }
{
    match (one, two) {
        (Body::Basic, Body::Basic) => true,
        (
            Body::One {
                first,
                children,
                buses,
                transitions,
            },
            Body::One {
                first: other,
                children: others,
                buses: groups,
                transitions: moves,
            },
        ) => {
            first == other
                && buses == groups
                && same_transitions(transitions.as_slice(), moves.as_slice())
                && same_children(children.as_slice(), others.as_slice())
        }
        (Body::All { children }, Body::All { children: others }) => {
            same_children(children.as_slice(), others.as_slice())
        }
        _ => false,
    }
}

/// Whether children are the same but for the guards in them.
#[cycle(walk)]
fn same_children(one: &[StateDecl], two: &[StateDecl]) -> bool
    ensures { result ≡ pointwise spec.same_child one.now two.now }
{
    let mut others = two;
    for child in one {
        let Some((other, after)) = others.split_first() else {
            return false;
        };
        let alike = child.name == other.name && child.size == other.size;
        if !(alike && same_body(&child.body, &other.body)) {
            return false;
        }
        others = after;
    }
    others.is_empty()
}
