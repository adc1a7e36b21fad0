//! The length of the longest chain from each event.
ghost use Rattle.std.specs.Prelude.{◌≡◌, ℕ, ◌<◌, ◌≤◌, ◌⊎◌, true, false, Some, length, IfOk};
ghost use Rattle.event_graph.specs.Graphs.{leads};
ghost use Rattle.event_graph.specs.Sets.{has};
ghost use Rattle.event_graph.specs.Ended.{length_at, AreLengths};

use crate::events::Events;
use crate::graph::EventGraph;
use rsml_base::NoMemory;
use std::alloc::Global;

/// The length of each event; none where some chain from it has an event twice. After each round the
/// events have ended all of whose followers had ended before.
pub fn lengths(alloc: Global, graph: &EventGraph) -> Result<Vec<Option<u32>>, NoMemory>
    ensures { IfOk result (λ lengths. AreLengths graph.now lengths.items) }
{
    let mut lengths = Vec::new(alloc);
    lengths.resize(graph.count() as usize, None)?;
    let mut ended = Events::new();
    for round in 0..graph.count() {
        let next = next_ended(graph, &ended);
        note(&mut lengths, &ended, &next, round + 1);
        ended = next;
    }
    Ok(lengths)
}

/// The events that lead to events of the set alone.
fn next_ended(graph: &EventGraph, ended: &Events) -> Events
    ensures some { (e : ℕ) → has result e ≡ true → (f : ℕ) → leads graph.now e f ≡ true
        → has ended.now f ≡ true }
    ensures all { (e : ℕ) → e < graph.now.count
        → ((f : ℕ) → leads graph.now e f ≡ true → has ended.now f ≡ true) → has result e ≡ true }
{
    let mut next = Events::new();
    for event in 0..graph.count() {
        if graph.row(event).is_within(ended) {
            next.put(event as usize);
        }
    }
    next
}

/// Writes the length of each event that has ended only now.
fn note(lengths: &mut Vec<Option<u32>>, before: &Events, after: &Events, round: u32)
    requires { length lengths.old.items ≤ 1024 }
    ensures long { length lengths.new.items ≡ length lengths.old.items }
    ensures noted { (e : ℕ) → e < length lengths.old.items → has after.now e ≡ true
        → has before.now e ≡ false → length_at lengths.new.items e ≡ Some round }
    ensures kept { (e : ℕ) → (has after.now e ≡ false) ⊎ (has before.now e ≡ true)
        → length_at lengths.new.items e ≡ length_at lengths.old.items e }
{
    for event in 0..lengths.len() {
        if after.has(event) && !before.has(event) {
            lengths[event] = Some(round);
        }
    }
}
