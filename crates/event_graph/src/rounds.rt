ghost use Rattle.std.specs.Prelude.{◌≡◌, ◌≢◌, ℕ, ◌+◌, ◌<◌, ◌≤◌, true, false, None, IfSome};
ghost use Rattle.event_graph.specs.Graphs.{leads};
ghost use Rattle.event_graph.specs.Sets.{has};
ghost use Rattle.event_graph.specs.Rounds.{IsRound, IsWithin, AreMeeting, AreFirstMeeting};

use crate::events::Events;
use crate::graph::EventGraph;
use std::marker::Model;

/// The events that end chains of so many events from one event, round by round: a chain of the
/// first round is that event alone. It takes no memory.
#[derive(Drop)]
pub struct Rounds<'g> {
    graph: &'g EventGraph,
    ends: Events,
}

impl<'g> Model for Rounds<'g> {
    ghost use Rattle.event_graph.specs.Rounds.{Round, IsWithin};

    ghost Value = { Round };

    ghost view = { λ r. record { graph = r.graph.now; ends = r.ends } };

    ghost invariant = { λ r. IsWithin (record { graph = r.graph.now; ends = r.ends }) };
}

impl<'g> Rounds<'g> {
    /// No round yet.
    pub fn new(graph: &'g EventGraph) -> Rounds<'g>
        ensures graph { result.graph ≡ graph.now }
        ensures none { (e : ℕ) → has result.ends e ≡ false }
    {
        Rounds {
            graph,
            ends: Events::new(),
        }
    }

    /// An event with those of a set.
    pub(crate) fn over(graph: &'g EventGraph, event: u32, set: &Events) -> Rounds<'g>
        requires event { event < graph.now.count }
        requires set { (q : ℕ) → has set.now q ≡ true → q < graph.now.count }
        ensures graph { result.graph ≡ graph.now }
        ensures first { has result.ends event ≡ true }
        ensures set { (q : ℕ) → has set.now q ≡ true → has result.ends q ≡ true }
    {
        let _ = graph.count();
        let mut ends = *set;
        ends.put(event as usize);
        Rounds { graph, ends }
    }

    /// The first round of an event.
    pub fn first(&mut self, event: u32)
        requires { event < self.old.graph.count }
        ensures round { IsRound self.new event 1 }
        ensures graph { self.new.graph ≡ self.old.graph }
    {
        let _ = self.graph.count();
        let mut ends = Events::new();
        ends.put(event as usize);
        self.ends = ends;
    }

    /// The next round of the same event.
    pub fn next(&mut self)
        ensures round { (x n : ℕ) → 1 ≤ n → IsRound self.old x n → IsRound self.new x (n + 1) }
        ensures graph { self.new.graph ≡ self.old.graph }
    {
        let _ = self.graph.count();
        self.ends = followers(self.graph, &self.ends);
    }

    /// The graph.
    pub fn graph(&self) -> &'g EventGraph
        ensures graph { result.now ≡ self.now.graph }
        ensures within { IsWithin self.now }
    {
        self.graph
    }

    /// Whether an event ends a chain of this round.
    pub fn has(&self, event: u32) -> bool
        requires { event < self.now.graph.count }
        ensures { result ≡ has self.now.ends event }
    {
        let _ = self.graph.count();
        self.ends.has(event as usize)
    }

    /// The first two different events of this round that meet: the least first, and then the least
    /// second.
    pub(crate) fn meeting(&self) -> Option<(u32, u32)>
        ensures some { IfSome result (λ p. AreFirstMeeting self.now p.0 p.1) }
        ensures none { result ≡ None → (e f : ℕ) → AreMeeting self.now e f → ⊥ }
    {
        let mut at = 0;
        while let Some(event) = self.ends.next(at) {
            let met = self.ends.common(self.graph.met(event as u32));
            if let Some(other) = other_than(&met, event) {
                return Some((event as u32, other as u32));
            }
            at = event + 1;
        }
        None
    }
}

/// The events that events of the set lead to.
fn followers(graph: &EventGraph, ends: &Events) -> Events
    requires { (e : ℕ) → has ends.now e ≡ true → e < graph.now.count }
    ensures some { (f : ℕ) → has result f ≡ true
        → (e : ℕ) × (has ends.now e ≡ true) × (leads graph.now e f ≡ true) }
    ensures all { (e f : ℕ) → has ends.now e ≡ true → leads graph.now e f ≡ true
        → has result f ≡ true }
{
    let mut led = Events::new();
    let mut at = 0;
    while let Some(event) = ends.next(at) {
        led.join(graph.row(event as u32));
        at = event + 1;
    }
    led
}

/// The least event of the set that is not this one.
fn other_than(set: &Events, event: usize) -> Option<usize>
    requires { event < 1024 }
    ensures some { IfSome result (λ f. (f < 1024) × (has set.now f ≡ true) × (f ≢ event)
        × ((q : ℕ) → q < f → q ≢ event → has set.now q ≡ false)) }
    ensures none { result ≡ None → (q : ℕ) → q ≢ event → has set.now q ≡ false }
{
    match set.next(0) {
        None => None,
        Some(first) => {
            if first != event {
                return Some(first);
            }
            set.next(event + 1)
        }
    }
}
