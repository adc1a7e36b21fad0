ghost use Rattle.std.specs.Prelude.{◌≡◌, OnOk, Some, flat_map};
ghost use Rattle.std.specs.Option.{option_copied};
ghost use Rattle.rsml_syntax.specs.limits.Comparisons as spec;
ghost use Rattle.rsml_syntax.specs.grammar.Parts as parts;
ghost use Rattle.rsml_limits.specs.comparisons.Searched.{searched, transition_comparisons, child_comparisons};

use crate::comparisons::phrases::each_guard;
use crate::comparisons::search::Search;
use rsml_names::{nearer, transitions_of};
use rsml_syntax::{Amount, Body, NoMemory, StateDecl, Transition};
use std::alloc::Global;

/// Goes through the comparisons of all states inside a body.
#[cycle(walk)]
pub fn inside<'a>(
    alloc: Global,
    search: &mut Search<'_, 'a>,
    array: Option<&'a Amount>,
    body: &'a Body,
) -> Result<(), NoMemory>
    ensures { OnOk result (search.new
        ≡ searched search.old (λ g.
        flat_map (spec.comparisons g) (parts.inside (option_copied array.entry) body.now))) }
{
    match body {
        Body::Basic => Ok(()),
        Body::One { children, .. } => each_child(alloc, search, array, children.as_slice()),
        Body::All { children } => each_child(alloc, search, array, children.as_slice()),
    }
}

// The comparisons of children, and of all states inside them.
#[cycle(walk)]
fn each_child<'a>(
    alloc: Global,
    search: &mut Search<'_, 'a>,
    array: Option<&'a Amount>,
    children: &'a [StateDecl],
) -> Result<(), NoMemory>
    ensures { OnOk result (search.new
        ≡ searched search.old (λ g.
        flat_map (child_comparisons g (option_copied array.entry)) children.now)) }
{
    for child in children {
        let around = nearer(child.size.as_ref(), array);
        inside(alloc, search, around, &child.body)?;
        state(alloc, search, around, &child.body)?;
    }
    Ok(())
}

/// Goes through the comparisons of a state's transitions, once for each of its instances.
pub fn state<'a>(
    alloc: Global,
    search: &mut Search<'_, 'a>,
    array: Option<&Amount>,
    body: &'a Body,
) -> Result<(), NoMemory>
    ensures { OnOk result (search.new
        ≡ searched search.old (transition_comparisons (option_copied array.entry)
        (parts.transitions_of body.now))) }
{
    let transitions = transitions_of(body);
    match array {
        None => each_guard(alloc, search, transitions, 0),
        Some(size) => each_instance(alloc, search, transitions, size),
    }
}

// The rows of transitions in each of so many instances.
fn each_instance<'a>(
    alloc: Global,
    search: &mut Search<'_, 'a>,
    transitions: &'a [Transition],
    size: &Amount,
) -> Result<(), NoMemory>
    ensures { OnOk result (search.new
        ≡ searched search.old (transition_comparisons (Some size.now) transitions.now)) }
{
    let count = search.globals().many(Some(size));
    for below in 0..count {
        each_guard(alloc, search, transitions, below + 1)?;
    }
    Ok(())
}
