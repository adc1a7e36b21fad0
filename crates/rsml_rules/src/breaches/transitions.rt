//! Transitions: S12 at sources and targets, S14 at what they raise, and what they use.
ghost use Rattle.std.specs.Prelude.{◌≡◌, [], OnOk, flat_map};
ghost use Rattle.rsml_syntax.specs.grammar.Parts as parts;
ghost use Rattle.rsml_syntax.specs.rules.States as spec;
ghost use Rattle.rsml_rules.specs.breaches.Noting.{noted};
ghost use Rattle.rsml_names.specs.Kin.{Holds};
ghost use Rattle.rsml_rules.specs.breaches.Around.{IsAround};

use crate::breaches::owner::Owner;
use crate::breaches::paths::is_target;
use crate::breaches::phrases::guard_used;
use crate::breaches::setting::Setting;
use crate::breaches::uses::{each_mentioned, mentioned};
use crate::breaches::worst::Worst;
use indexmap::IndexSet;
use rsml_names::{Families, NameList, Scope};
use rsml_syntax::{Body, List, Mention, NoMemory, Text, Transition, Want};
use std::alloc::Global;

/// The state that transitions stand in: its body, the family of its children, and the names of its
/// children and buses.
#[derive(Drop)]
pub struct Around<'a, 'n> {
    pub body: &'a Body,
    pub family: usize,
    pub children: &'n NameList<'a>,
    pub buses: &'n NameList<'a>,
}

/// A target.
#[tactic(auto, using(crate::proofs::Lasts::last_of_some, crate::proofs::Lasts::last_of_none))]
fn target<'a>(
    families: &Families<'a>,
    around: &Around<'_, '_>,
    path: &'a Option<List<Text>>,
    worst: &mut Worst<'a>,
)
    requires { Holds families.now around.now.family (parts.children_of around.now.body.now) }
    ensures { worst.new ≡ noted worst.old
        (spec.target (parts.children_of around.now.body.now) path.now) }
{
    if let Some(path) = path {
        let path = path.as_slice();
        if let Some(last) = path.last() {
            let right = is_target(families, around.body, around.family, path);
            worst.note(12, last, !right);
        }
    }
}

/// What stands in a raise list before.
fn raised_again<'a>(
    alloc: Global,
    mentions: &'a [Mention],
    worst: &mut Worst<'a>,
) -> Result<(), NoMemory>
    ensures { OnOk result (worst.new ≡ noted worst.old (spec.raised_again [] mentions.now)) }
{
    let mut earlier = IndexSet::new(alloc);
    for mention in mentions {
        let is_new = earlier.insert(mention)?;
        worst.note(14, &mention.name, !is_new);
    }
    Ok(())
}

/// A transition.
fn transition_used<'a>(
    alloc: Global,
    setting: &Setting<'a, '_>,
    scope: &Scope<'a>,
    around: &Around<'a, '_>,
    transition: &'a Transition,
    worst: &mut Worst<'a>,
) -> Result<(), NoMemory>
    requires { IsAround setting.now.families around.now }
    ensures { OnOk result (worst.new ≡ noted worst.old
        (spec.transition setting.now.tables scope.now around.now.body.now transition.now)) }
{
    let tables = setting.tables();
    let source = &transition.source;
    let is_source = around.children.has(source.bytes()) || around.buses.has(source.bytes());
    worst.note(12, source, !is_source);
    Owner::new()
        .with_guard(setting, &transition.guard)
        .note(source, worst);
    target(setting.families(), around, &transition.target, worst);
    mentioned(tables, scope, Want::Event, &transition.trigger, worst);
    guard_used(setting, scope, &transition.guard, worst);
    let raises = transition.raises.as_slice();
    each_mentioned(tables, scope, Want::Event, raises, worst);
    raised_again(alloc, raises, worst)
}

/// Transitions.
pub fn each_transition<'a>(
    alloc: Global,
    setting: &Setting<'a, '_>,
    scope: &Scope<'a>,
    around: &Around<'a, '_>,
    transitions: &'a [Transition],
    worst: &mut Worst<'a>,
) -> Result<(), NoMemory>
    requires { IsAround setting.now.families around.now }
    ensures { OnOk result (worst.new ≡ noted worst.old
        (flat_map (spec.transition setting.now.tables scope.now around.now.body.now)
        transitions.now)) }
{
    for transition in transitions {
        transition_used(alloc, setting, scope, around, transition, worst)?;
    }
    Ok(())
}
