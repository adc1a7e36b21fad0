//! Paths of states: S6 and S9 at `in`, S12 at targets.
ghost use Rattle.std.specs.Prelude.{◌≡◌};
ghost use Rattle.rsml_syntax.specs.grammar.Parts.{children_of as of_body};
ghost use Rattle.rsml_syntax.specs.rules.Uses as uses;
ghost use Rattle.rsml_syntax.specs.rules.States as states;
ghost use Rattle.rsml_rules.specs.breaches.Noting.{noted};
ghost use Rattle.rsml_names.specs.Kin.{Holds};

use crate::breaches::indices::is_indexed;
use crate::breaches::setting::Setting;
use crate::breaches::worst::Worst;
use rsml_names::{Families, Scope};
use rsml_syntax::{Body, Mention, Text};

/// The later steps of a path, from a state whose children are this family.
fn steps_used<'a>(
    setting: &Setting<'a, '_>,
    scope: &Scope<'a>,
    body: &Body,
    family: usize,
    path: &'a [Mention],
    worst: &mut Worst<'a>,
)
    requires { Holds setting.now.families family (of_body body.now) }
    ensures { worst.new ≡ noted worst.old
        (uses.steps_used setting.now.tables scope.now (of_body body.now) path.now) }
{
    if let Some((mention, rest)) = path.split_first() {
        if let Some(child) = setting.families().child(family, mention.name.bytes()) {
            let globals = &setting.tables().globals;
            let size = globals.size(child.state.size.as_ref());
            let right = is_indexed(globals, scope, size, &mention.index);
            worst.note(6, &mention.name, !right);
            steps_used(setting, scope, &child.state.body, child.family, rest, worst);
        }
    }
}

/// Whether each step names a child of the one before it.
fn are_steps(families: &Families<'_>, body: &Body, family: usize, path: &[Mention]) -> bool
    requires { Holds families.now family (of_body body.now) }
    ensures { result ≡ uses.are_steps (of_body body.now) path.now }
{
    match path.split_first() {
        Some((mention, rest)) => match families.child(family, mention.name.bytes()) {
            Some(child) => are_steps(families, &child.state.body, child.family, rest),
            None => false,
        },
        None => true,
    }
}

/// Whether a path that begins so names a state.
fn names_state(setting: &Setting<'_, '_>, first: &Mention, rest: &[Mention]) -> bool
    ensures { result ≡ uses.names_state setting.now.tables first.now rest.now }
{
    first.name.bytes() == setting.tables().top.bytes()
        && first.index.is_none()
        && are_steps(
            setting.families(),
            setting.tables().body,
            setting.top(),
            rest,
        )
}

/// The last name of a path that begins so.
#[tactic(auto, using(crate::proofs::Lasts::last_name_some, crate::proofs::Lasts::last_name_none))]
fn last_name<'a>(first: &'a Mention, rest: &'a [Mention]) -> &'a Text
    ensures { result.now ≡ uses.last_name first.now rest.now }
{
    match rest.last() {
        Some(last) => &last.name,
        None => &first.name,
    }
}

/// A path after `in`.
pub fn path_used<'a>(
    setting: &Setting<'a, '_>,
    scope: &Scope<'a>,
    path: &'a [Mention],
    worst: &mut Worst<'a>,
)
    ensures { worst.new ≡ noted worst.old (uses.path_used setting.now.tables scope.now path.now) }
{
    if let Some((first, rest)) = path.split_first() {
        let tables = setting.tables();
        if first.name.bytes() == tables.top.bytes() {
            steps_used(setting, scope, tables.body, setting.top(), rest, worst);
        }
        let last = last_name(first, rest);
        worst.note(9, last, !names_state(setting, first, rest));
    }
}

/// Whether each step of a target is a child of the one before it, and no array.
pub fn is_target(families: &Families<'_>, body: &Body, family: usize, path: &[Text]) -> bool
    requires { Holds families.now family (of_body body.now) }
    ensures { result ≡ states.is_target (of_body body.now) path.now }
{
    match path.split_first() {
        Some((name, rest)) => match families.child(family, name.bytes()) {
            Some(child) => {
                child.state.size.is_none()
                    && is_target(families, &child.state.body, child.family, rest)
            }
            None => false,
        },
        None => true,
    }
}
