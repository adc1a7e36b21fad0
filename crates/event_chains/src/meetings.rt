//! Which events meet: those that states on one line, or one send instance, react to.
ghost use Rattle.std.specs.Prelude.{◌≡◌, ℕ, ◌+◌, ◌<◌, ◌≤◌, ◌&&◌, ◌||◌, ◌==◌, true, IfOk, OnOk, length};
ghost use Rattle.std.specs.List.{list_any};
ghost use Rattle.rsml_meaning.specs.Words.{Each, on_one_line};
ghost use Rattle.rsml_meaning.specs.Instances.{states};
ghost use Rattle.state_tree.specs.Numbers.{path_of};
ghost use Rattle.event_graph.specs.Graphs.{meets};
ghost use Rattle.event_graph.specs.Sets.{has, has_at};
ghost use Rattle.event_chains.specs.Reactions.{AreBelow, meet_by, reacts, reacts_on_line};

use crate::reaction::Reaction;
use event_graph::{EventGraph, Events, no_events, put_in};
use rsml_syntax::NoMemory;
use state_tree::Tree;
use std::alloc::Global;

/// Tells that events meet that sources on one line react to.
pub fn meet_on_lines(
    alloc: Global,
    graph: &mut EventGraph,
    tree: &Tree<'_>,
    reactions: &[Reaction],
) -> Result<(), NoMemory>
    requires { AreBelow (length (states tree.now)) graph.old.count reactions.now }
    ensures meets { OnOk result ((a b : ℕ) → meets graph.new a b ≡ (meets graph.old a b
        || list_any (λ r. r.event == a && reacts_on_line tree.now reactions.now r.owner b) reactions.now)) }
    ensures count { graph.new.count ≡ graph.old.count }
    ensures leads { graph.new.ways ≡ graph.old.ways }
    ensures starts { graph.new.begun ≡ graph.old.begun }
{
    let _ = graph.count();
    let sets = sets_of(alloc, tree.nodes() as usize, reactions)?;
    let lines = lines(alloc, tree, reactions, sets.as_slice())?;
    meet_all(graph, lines.as_slice(), reactions);
    Ok(())
}

/// Tells that events meet that one send instance reacts to.
pub fn meet_in_sends(
    alloc: Global,
    graph: &mut EventGraph,
    reactions: &[Reaction],
) -> Result<(), NoMemory>
    requires { Each (λ r. r.event < graph.old.count) reactions.now }
    ensures meets { OnOk result ((a b : ℕ) → meets graph.new a b ≡ (meets graph.old a b
        || list_any (λ r. r.event == a && reacts reactions.now r.owner b) reactions.now)) }
    ensures count { graph.new.count ≡ graph.old.count }
    ensures leads { graph.new.ways ≡ graph.old.ways }
    ensures starts { graph.new.begun ≡ graph.old.begun }
{
    let _ = graph.count();
    let sets = sets_of(alloc, owners(reactions), reactions)?;
    meet_all(graph, sets.as_slice(), reactions);
    Ok(())
}

// A number that all owners are below.
fn owners(reactions: &[Reaction]) -> usize
    ensures { Each (λ r. r.owner < result) reactions.now }
{
    let mut owners = 0;
    for reaction in reactions {
        owners = owners.max(reaction.owner as usize + 1);
    }
    owners
}

// For each owner the events that it reacts to.
fn sets_of(alloc: Global, owners: usize, reactions: &[Reaction]) -> Result<Vec<Events>, NoMemory>
    requires { AreBelow owners 1024 reactions.now }
    ensures sets { IfOk result (λ sets. (k b : ℕ) → has_at sets.items k b ≡ reacts reactions.now k b) }
    ensures long { IfOk result (λ sets. length sets.items ≡ owners) }
{
    let mut sets = no_events(alloc, owners)?;
    for reaction in reactions {
        put_in(&mut sets, reaction.owner as usize, reaction.event as usize);
    }
    Ok(sets)
}

// For each state the events that states on a line with it react to.
fn lines(
    alloc: Global,
    tree: &Tree<'_>,
    reactions: &[Reaction],
    sets: &[Events],
) -> Result<Vec<Events>, NoMemory>
    requires long { length sets.now ≡ length (states tree.now) }
    requires sets { (k b : ℕ) → has_at sets.now k b ≡ reacts reactions.now k b }
    requires below { Each (λ r. r.owner < length (states tree.now)) reactions.now }
    ensures lines { IfOk result (λ lines. (k b : ℕ) → k < length (states tree.now)
        → has_at lines.items k b ≡ reacts_on_line tree.now reactions.now k b) }
    ensures long { IfOk result (λ lines. length lines.items ≡ length (states tree.now)) }
{
    let mut lines = Vec::new(alloc);
    for node in 0..tree.nodes() {
        lines.push(line(tree, sets, node))?;
    }
    Ok(lines)
}

// The events that states on a line with this one react to.
fn line(tree: &Tree<'_>, sets: &[Events], node: u32) -> Events
    requires long { length sets.now ≡ length (states tree.now) }
    requires node { node < length (states tree.now) }
    ensures some { (b : ℕ) → has result b ≡ true → (k : ℕ) × (k < length (states tree.now))
        × (on_one_line (path_of tree.now node) (path_of tree.now k) ≡ true) × (has_at sets.now k b ≡ true) }
    ensures all { (k b : ℕ) → k < length (states tree.now)
        → on_one_line (path_of tree.now node) (path_of tree.now k) ≡ true
        → has_at sets.now k b ≡ true → has result b ≡ true }
{
    let mut events = Events::new();
    for other in 0..tree.nodes() {
        join_if(
            &mut events,
            &sets[other as usize],
            tree.on_one_line(node, other),
        );
    }
    events
}

// Puts the events of another set in, if they are to be.
fn join_if(events: &mut Events, others: &Events, joined: bool)
    ensures { (q : ℕ) → has events.new q ≡ (has events.old q || (joined && has others.now q)) }
{
    if joined {
        events.join(others);
    }
}

// Tells that each event meets those of the set of each that reacts to it.
fn meet_all(graph: &mut EventGraph, sets: &[Events], reactions: &[Reaction])
    requires below { AreBelow (length sets.now) graph.old.count reactions.now }
    requires within { (k b : ℕ) → has_at sets.now k b ≡ true → b < graph.old.count }
    ensures meets { (a b : ℕ) → meets graph.new a b
        ≡ (meets graph.old a b || meet_by sets.now reactions.now a b) }
    ensures count { graph.new.count ≡ graph.old.count }
    ensures leads { graph.new.ways ≡ graph.old.ways }
    ensures starts { graph.new.begun ≡ graph.old.begun }
{
    for reaction in reactions {
        graph.meet_each(reaction.event, &sets[reaction.owner as usize]);
    }
}
