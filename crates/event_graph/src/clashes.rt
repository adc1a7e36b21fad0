//! The first clash of each event that begins chains.
ghost use Rattle.std.specs.Prelude.{◌≡◌, ℕ, ◌<◌, ◌≤◌, ◌++◌, [], true, false, None, IfOk, OnOk, flat_map};
ghost use Rattle.event_graph.specs.Graphs.{starts};
ghost use Rattle.event_graph.specs.Sets.{has};
ghost use Rattle.event_graph.specs.Chains.{IsLength};
ghost use Rattle.event_graph.specs.Ended.{AreLengths};
ghost use Rattle.event_graph.specs.Reached.{AreReached, LeadsOn};
ghost use Rattle.event_graph.specs.Clashes.{IsClashAnswer, AreClashes, if_any};

use crate::clash::Clash;
use crate::events::Events;
use crate::graph::EventGraph;
use crate::rounds::Rounds;
use rsml_base::NoMemory;
use std::alloc::Global;

/// For each event that begins chains and has a length its first clash, if it has one; for each
/// other none.
pub fn firsts(
    alloc: Global,
    graph: &EventGraph,
    lengths: &[Option<u32>],
    sets: &[Events],
) -> Result<Vec<Option<Clash>>, NoMemory>
    requires lengths { AreLengths graph.now lengths.now }
    requires sets { AreReached graph.now sets.now }
    ensures { IfOk result (λ firsts. AreClashes graph.now firsts.items) }
{
    let starts = graph.starts();
    let mut firsts = Vec::new(alloc);
    for event in 0..graph.count() {
        firsts.push(clash_of(graph, &starts, lengths, sets, event))?;
    }
    Ok(firsts)
}

/// The first clash of an event that begins chains and has a length.
fn clash_of(
    graph: &EventGraph,
    starts: &Events,
    lengths: &[Option<u32>],
    sets: &[Events],
    event: u32,
) -> Option<Clash>
    requires event { event < graph.now.count }
    requires lengths { AreLengths graph.now lengths.now }
    requires sets { AreReached graph.now sets.now }
    ensures start { has starts.now event ≡ true → IsClashAnswer graph.now event result }
    ensures other { has starts.now event ≡ false → result ≡ None }
{
    let _ = graph.count();
    if !starts.has(event as usize) {
        return None;
    }
    match lengths[event as usize] {
        None => None,
        Some(length) => clash_within(graph, event, length, &sets[event as usize]),
    }
}

/// The first clash of an event of this length, which leads on to the events of the set. None where
/// no two of them meet.
fn clash_within(graph: &EventGraph, event: u32, length: u32, set: &Events) -> Option<Clash>
    requires event { event < graph.now.count }
    requires length { IsLength graph.now event length }
    requires all { (q : ℕ) → LeadsOn graph.now event q → has set.now q ≡ true }
    requires only { (q : ℕ) → has set.now q ≡ true → q < graph.now.count }
    ensures { IsClashAnswer graph.now event result }
{
    let all = Rounds::over(graph, event, set);
    match all.meeting() {
        None => None,
        Some(_) => first_clash(graph, event, length),
    }
}

/// The first clash of an event of this length.
fn first_clash(graph: &EventGraph, event: u32, length: u32) -> Option<Clash>
    requires event { event < graph.now.count }
    requires length { IsLength graph.now event length }
    ensures { IsClashAnswer graph.now event result }
{
    let mut rounds = Rounds::new(graph);
    rounds.first(event);
    for round in 0..length {
        if let Some((one, two)) = rounds.meeting() {
            return Some(Clash {
                start: event,
                round: round + 1,
                one,
                two,
            });
        }
        rounds.next();
    }
    None
}

/// The clashes that there are.
pub fn all_clashes(alloc: Global, firsts: &[Option<Clash>]) -> Result<Vec<Clash>, NoMemory>
    ensures { IfOk result (λ clashes. clashes.items ≡ flat_map if_any firsts.now) }
{
    let mut clashes = Vec::new(alloc);
    for first in firsts {
        push_any(&mut clashes, *first)?;
    }
    Ok(clashes)
}

/// Puts a clash at the end, if there is one.
fn push_any(clashes: &mut Vec<Clash>, first: Option<Clash>) -> Result<(), NoMemory>
    ensures { OnOk result (clashes.new.items ≡ clashes.old.items ++ if_any first) }
{
    if let Some(clash) = first {
        clashes.push(clash)?;
    }
    Ok(())
}
