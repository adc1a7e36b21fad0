//! Which events others reach, and the events that loop.
ghost use Rattle.std.specs.Prelude.{◌≡◌, ℕ, ◌<◌, ◌≤◌, ◌==◌, ◌||◌, ◌&&◌, ◌⊎◌, ◌++◌, ◌∷◌, [], cond, true, false, length, IfOk, OnOk};
ghost use Rattle.event_graph.specs.Graphs.{starts};
ghost use Rattle.event_graph.specs.Sets.{has, has_at};
ghost use Rattle.event_graph.specs.Reached.{AreReached, AreLoops, IsBegun};

use crate::events::Events;
use crate::graph::EventGraph;
use rsml_base::NoMemory;
use std::alloc::Global;

/// The events that loop, rising: those that lead on to themselves, and that a start is or leads on
/// to. The sets are of those that each event leads on to.
pub fn loops(alloc: Global, graph: &EventGraph, sets: &[Events]) -> Result<Vec<u32>, NoMemory>
    requires { AreReached graph.now sets.now }
    ensures { IfOk result (λ loops. AreLoops graph.now loops.items) }
{
    let begun = begun_of(graph, sets);
    let mut loops = Vec::new(alloc);
    for event in 0..graph.count() {
        let looping = is_looping(&begun, sets, event as usize);
        push_if(&mut loops, event, looping)?;
    }
    Ok(loops)
}

/// Whether an event leads on to itself, and a start is the event or leads on to it.
fn is_looping(begun: &Events, sets: &[Events], event: usize) -> bool
    requires set { event < length sets.now }
    requires event { event < 1024 }
    ensures { result ≡ (has begun.now event && has_at sets.now event event) }
{
    begun.has(event) && is_at(sets, event, event)
}

/// Puts an event at the end, if it loops.
fn push_if(loops: &mut Vec<u32>, event: u32, looping: bool) -> Result<(), NoMemory>
    ensures { OnOk result (loops.new.items ≡ loops.old.items ++ cond looping (event ∷ []) []) }
{
    if looping {
        loops.push(event)?;
    }
    Ok(())
}

/// The events of chains that begin with a start.
fn begun_of(graph: &EventGraph, sets: &[Events]) -> Events
    requires { length sets.now ≡ graph.now.count }
    ensures only { (e : ℕ) → has result e ≡ true → IsBegun graph.now sets.now e }
    ensures all { (e : ℕ) → IsBegun graph.now sets.now e → has result e ≡ true }
{
    let starts = graph.starts();
    let mut begun = starts;
    for start in 0..graph.count() {
        begin_at(&mut begun, &starts, sets, start as usize);
    }
    begun
}

/// Puts in what an event leads on to, if it is a start.
fn begin_at(begun: &mut Events, starts: &Events, sets: &[Events], start: usize)
    requires set { start < length sets.now }
    requires start { start < 1024 }
    ensures { (e : ℕ) → has begun.new e
        ≡ (has begun.old e || (has starts.now start && has_at sets.now start e)) }
{
    if !starts.has(start) {
        return;
    }
    begun.join(&sets[start]);
}

/// The set of those that each event leads on to.
pub fn reached(alloc: Global, graph: &EventGraph) -> Result<Vec<Events>, NoMemory>
    ensures { IfOk result (λ sets. AreReached graph.now sets.items) }
{
    let mut sets = graph.rows(alloc)?;
    for middle in 0..graph.count() {
        go_through(&mut sets, middle as usize);
    }
    Ok(sets)
}

/// Each event that leads on to the middle leads on to what the middle does.
fn go_through(sets: &mut Vec<Events>, middle: usize)
    requires few { length sets.old.items ≤ 1024 }
    requires middle { middle < length sets.old.items }
    ensures long { length sets.new.items ≡ length sets.old.items }
    ensures more { (a b : ℕ) → has_at sets.new.items a b ≡ (has_at sets.old.items a b
        || (has_at sets.old.items a middle && has_at sets.old.items middle b)) }
{
    let onward = sets[middle];
    for event in 0..sets.len() {
        join_at(sets, event, middle, &onward);
    }
}

/// Whether the set of the first event has the second.
fn is_at(sets: &[Events], first: usize, second: usize) -> bool
    requires first { first < length sets.now }
    requires second { second < 1024 }
    ensures { result ≡ has_at sets.now first second }
{
    sets[first].has(second)
}

/// Puts more events into the set of an event, if that has the middle.
fn join_at(sets: &mut Vec<Events>, event: usize, middle: usize, more: &Events)
    requires event { event < length sets.old.items }
    requires middle { middle < 1024 }
    ensures long { length sets.new.items ≡ length sets.old.items }
    ensures more { (a b : ℕ) → has_at sets.new.items a b ≡ (has_at sets.old.items a b
        || (event == a && (has_at sets.old.items event middle && has more.now b))) }
{
    if !is_at(sets.as_slice(), event, middle) {
        return;
    }
    sets[event].join(more);
}
