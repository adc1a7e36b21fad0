//! States where they open and where they close: S1, S5, S10, S11 and S13.
ghost use Rattle.std.specs.Prelude.{◌≡◌, [], IfOk, OnOk, flat_map, map, take, true};
ghost use Rattle.std.specs.List.{list_all};
ghost use Rattle.std.specs.Option.{option_copied, option_map_or};
ghost use Rattle.rsml_syntax.specs.text.Names.{is_in};
ghost use Rattle.rsml_syntax.specs.grammar.Parts as parts;
ghost use Rattle.rsml_syntax.specs.rules.Rules as rules;
ghost use Rattle.rsml_syntax.specs.rules.States as spec;
ghost use Rattle.rsml_rules.specs.breaches.Noting.{noted};
ghost use Rattle.rsml_names.specs.Kin.{Holds};
ghost use Rattle.rsml_rules.specs.breaches.Walks as walk;

use crate::breaches::setting::Setting;
use crate::breaches::state::{State, state_scope};
use crate::breaches::transitions::{Around, each_transition};
use crate::breaches::uses::sized;
use crate::breaches::worst::Worst;
use rsml_names::{NameList, buses_of, default_of, is_basic, nearer, transitions_of};
use rsml_syntax::{Amount, Body, Bus, NoMemory, StateDecl, Text};
use std::alloc::Global;

/// The greatest number of children.
const MOST_CHILDREN: usize = 64;

/// Whether the default child is one of these names.
fn has_default(names: &NameList<'_>, body: &Body) -> bool
    ensures { result
        ≡ option_map_or (λ first. is_in first names.now) (parts.default_of body.now) true }
{
    match default_of(body) {
        Some(first) => names.has(first.bytes()),
        None => true,
    }
}

/// Whether a `one` or `all` state has 1 to 64 children, with its default among them.
fn is_composed(names: &NameList<'_>, body: &Body) -> bool
    requires { names.now ≡ spec.child_names body.now }
    ensures { result ≡ spec.is_composed body.now }
{
    let children = names.count();
    is_basic(body) || (1 <= children && children <= MOST_CHILDREN && has_default(names, body))
}

/// A state where it opens.
fn opening<'a>(
    setting: &Setting<'a, '_>,
    state: &State<'a>,
    names: &NameList<'a>,
    worst: &mut Worst<'a>,
)
    requires { names.now ≡ spec.child_names state.now.body }
    ensures { worst.new ≡ noted worst.old (spec.opening setting.now.tables state.now) }
{
    let tables = setting.tables();
    let name = state.name;
    let misplaced = state.size.is_some() && (state.in_one || state.array.is_some());
    worst.note(1, name, state.repeated);
    worst.note(10, name, !is_composed(names, state.body));
    worst.note(13, name, misplaced);
    sized(tables, &state_scope(tables, state), name, state.size, worst);
}

/// Whether a name stands twice in a list.
fn has_repeat(alloc: Global, names: &[Text]) -> Result<bool, NoMemory>
    ensures { IfOk result (λ r. r ≡ spec.has_repeat [] names.now) }
{
    let mut earlier = NameList::new(alloc);
    for name in names {
        if earlier.add(name.bytes())? {
            return Ok(true);
        }
    }
    Ok(false)
}

/// Whether the members of a bus are children.
fn are_children(children: &NameList<'_>, members: &[Text]) -> bool
    ensures { result ≡ list_all (λ m. is_in m children.now) members.now }
{
    members.iter().all(|member| children.has(member.bytes()))
}

/// Whether the members of a bus are children, each once.
fn are_members(alloc: Global, children: &NameList<'_>, members: &[Text]) -> Result<bool, NoMemory>
    ensures { IfOk result (λ r. r ≡ spec.are_members children.now members.now) }
{
    Ok(are_children(children, members) && !has_repeat(alloc, members)?)
}

/// Buses beside these children; and then the names of the buses.
fn each_bus<'a>(
    alloc: Global,
    children: &NameList<'a>,
    buses: &'a [Bus],
    worst: &mut Worst<'a>,
) -> Result<NameList<'a>, NoMemory>
    ensures worst { OnOk result (worst.new ≡ noted worst.old
        (spec.buses children.now children.now buses.now)) }
    ensures names { IfOk result (λ names. names ≡ map (λ b. b.name) buses.now) }
{
    let mut names = NameList::new(alloc);
    for bus in buses {
        let again = names.add(bus.name.bytes())?;
        let taken = children.has(bus.name.bytes()) || again;
        worst.note(1, &bus.name, taken);
        let right = are_members(alloc, children, bus.members.as_slice())?;
        worst.note(11, &bus.name, !right);
    }
    Ok(names)
}

/// A state where it closes.
fn closing<'a>(
    alloc: Global,
    setting: &Setting<'a, '_>,
    state: &State<'a>,
    family: usize,
    children: &NameList<'a>,
    worst: &mut Worst<'a>,
) -> Result<(), NoMemory>
    requires family { Holds setting.now.families family (parts.children_of state.now.body) }
    requires children { children.now ≡ spec.child_names state.now.body }
    ensures { OnOk result (worst.new ≡ noted worst.old
        (spec.closing setting.now.tables state.now)) }
{
    let body = state.body;
    let buses = each_bus(alloc, children, buses_of(body), worst)?;
    let scope = state_scope(setting.tables(), state);
    let around = Around {
        body,
        family,
        children,
        buses: &buses,
    };
    each_transition(alloc, setting, &scope, &around, transitions_of(body), worst)
}

/// A state with all that is in it: this is its body.
#[cycle(walk)]
pub fn judged<'a>(
    alloc: Global,
    setting: &Setting<'a, '_>,
    state: &State<'a>,
    body: &'a Body,
    family: usize,
    worst: &mut Worst<'a>,
) -> Result<(), NoMemory>
    requires body { body.now ≡ state.now.body }
    requires family { Holds setting.now.families family (parts.children_of body.now) }
    ensures { OnOk result (worst.new ≡ noted worst.old
        (flat_map (rules.judged setting.now.tables) (walk.state_parts state.now))) }
{
    if let Some(names) = setting.families().names(family) {
        opening(setting, state, names, worst);
        let array = nearer(state.size, state.array);
        inside(alloc, setting, array, body, family, names, worst)?;
        closing(alloc, setting, state, family, names, worst)?;
    }
    Ok(())
}

/// What is in a state.
#[cycle(walk)]
fn inside<'a>(
    alloc: Global,
    setting: &Setting<'a, '_>,
    array: Option<&'a Amount>,
    body: &'a Body,
    family: usize,
    names: &NameList<'a>,
    worst: &mut Worst<'a>,
) -> Result<(), NoMemory>
    requires family { Holds setting.now.families family (parts.children_of body.now) }
    requires names { names.now ≡ spec.child_names body.now }
    ensures { OnOk result (worst.new ≡ noted worst.old
        (flat_map (rules.judged setting.now.tables)
        (parts.inside (option_copied array.entry) body.now))) }
{
    match body {
        Body::Basic => Ok(()),
        Body::One { children, .. } => {
            each_child(
                alloc,
                setting,
                true,
                array,
                children.as_slice(),
                family,
                names,
                worst,
            )
        }
        Body::All { children } => {
            each_child(
                alloc,
                setting,
                false,
                array,
                children.as_slice(),
                family,
                names,
                worst,
            )
        }
    }
}

/// Whether a name is among the first so many.
#[tactic(auto, using(crate::proofs::Earlier::is_earlier))]
fn is_earlier(names: &NameList<'_>, place: usize, name: &Text) -> bool
    ensures { result ≡ is_in name.now (take place names.now) }
{
    match names.find(name.bytes()) {
        Some(first) => first < place,
        None => false,
    }
}

/// Children with these names.
#[cycle(walk)]
fn each_child<'a>(
    alloc: Global,
    setting: &Setting<'a, '_>,
    in_one: bool,
    array: Option<&'a Amount>,
    children: &'a [StateDecl],
    family: usize,
    names: &NameList<'a>,
    worst: &mut Worst<'a>,
) -> Result<(), NoMemory>
    requires family { Holds setting.now.families family children.now }
    requires names { names.now ≡ map (λ c. c.name) children.now }
    ensures { OnOk result (worst.new ≡ noted worst.old
        (flat_map (rules.judged setting.now.tables)
        (parts.child_parts in_one (option_copied array.entry) [] children.now))) }
{
    for (place, child) in children.iter().enumerate() {
        let state = State {
            name: &child.name,
            repeated: is_earlier(names, place, &child.name),
            size: child.size.as_ref(),
            array,
            in_one,
            body: &child.body,
        };
        if let Some(below) = setting.families().below(family, place) {
            judged(alloc, setting, &state, &child.body, below, worst)?;
        }
    }
    Ok(())
}
