ghost use Rattle.std.specs.Prelude.{◌≡◌, ℕ, ◌<◌, ◌≤◌, ◌==◌, ◌||◌, ◌&&◌, true, IfOk};
ghost use Rattle.event_graph.specs.Graphs.{leads, starts, meets, IsBare, IsGraph};
ghost use Rattle.event_graph.specs.Sets.{has};

use crate::events::Events;
use crate::sets::{join_in, no_events, put_in};
use rsml_base::NoMemory;
use std::alloc::Global;
use std::marker::Model;

/// Events, which are the numbers below a count of at most 1,024: which leads to which, which begin
/// chains, and which meet.
pub struct EventGraph {
    count: u32,
    ways: Vec<Events>,
    begun: Events,
    pairs: Vec<Events>,
}

impl Drop for EventGraph {
    fn drop(self) {
        let Self {
            count: _,
            ways: _,
            begun: _,
            pairs: _,
        } = self;
    }
}

impl Model for EventGraph {
    ghost use Rattle.event_graph.specs.Graphs.{Graph, IsGraph};

    ghost Value = { Graph };

    ghost view = { λ g. record { count = g.count; ways = g.ways.items; begun = g.begun; pairs = g.pairs.items } };

    ghost invariant = { λ g. IsGraph (record {
      count = g.count;
      ways = g.ways.items;
      begun = g.begun;
      pairs = g.pairs.items;
    }) };
}

impl EventGraph {
    /// So many events, of which nothing is told.
    pub fn new(alloc: Global, count: u32) -> Result<EventGraph, NoMemory>
        requires { count ≤ 1024 }
        ensures { IfOk result (λ g. IsBare g count) }
    {
        let ways = no_events(alloc, count as usize)?;
        let pairs = no_events(alloc, count as usize)?;
        Ok(EventGraph {
            count,
            ways,
            begun: Events::new(),
            pairs,
        })
    }

    /// How many events there are.
    pub fn count(&self) -> u32
        ensures count { result ≡ self.now.count }
        ensures graph { IsGraph self.now }
    {
        self.count
    }

    /// One event leads to another.
    pub fn lead(&mut self, from: u32, to: u32)
        requires from { from < self.old.count }
        requires to { to < self.old.count }
        ensures leads { (a b : ℕ) → leads self.new a b
            ≡ (leads self.old a b || (from == a && to == b)) }
        ensures count { self.new.count ≡ self.old.count }
        ensures starts { self.new.begun ≡ self.old.begun }
        ensures meets { self.new.pairs ≡ self.old.pairs }
    {
        put_in(&mut self.ways, from as usize, to as usize);
    }

    /// An event begins chains.
    pub fn start(&mut self, event: u32)
        requires { event < self.old.count }
        ensures starts { (e : ℕ) → starts self.new e ≡ (starts self.old e || event == e) }
        ensures count { self.new.count ≡ self.old.count }
        ensures leads { self.new.ways ≡ self.old.ways }
        ensures meets { self.new.pairs ≡ self.old.pairs }
    {
        self.begun.put(event as usize);
    }

    /// Whether an event begins chains.
    pub fn is_start(&self, event: u32) -> bool
        requires { event < self.now.count }
        ensures { result ≡ starts self.now event }
    {
        let _ = &self.count;
        self.begun.has(event as usize)
    }

    /// Two events meet, each the other.
    pub fn meet(&mut self, one: u32, two: u32)
        requires one { one < self.old.count }
        requires two { two < self.old.count }
        ensures meets { (a b : ℕ) → meets self.new a b
            ≡ ((meets self.old a b || (one == a && two == b)) || (two == a && one == b)) }
        ensures count { self.new.count ≡ self.old.count }
        ensures leads { self.new.ways ≡ self.old.ways }
        ensures starts { self.new.begun ≡ self.old.begun }
    {
        put_in(&mut self.pairs, one as usize, two as usize);
        put_in(&mut self.pairs, two as usize, one as usize);
    }

    /// An event meets each event of a set. It tells this order alone.
    pub fn meet_each(&mut self, event: u32, others: &Events)
        requires event { event < self.old.count }
        requires within { (q : ℕ) → has others.now q ≡ true → q < self.old.count }
        ensures meets { (a b : ℕ) → meets self.new a b
            ≡ (meets self.old a b || (event == a && has others.now b)) }
        ensures count { self.new.count ≡ self.old.count }
        ensures leads { self.new.ways ≡ self.old.ways }
        ensures starts { self.new.begun ≡ self.old.begun }
    {
        join_in(&mut self.pairs, event as usize, others);
    }

    /// The events that an event leads to.
    pub(crate) fn row(&self, event: u32) -> &Events
        requires { event < self.now.count }
        ensures { (q : ℕ) → has result.now q ≡ leads self.now event q }
    {
        &self.ways[event as usize]
    }

    /// The events that each event leads to.
    pub(crate) fn rows(&self, alloc: Global) -> Result<Vec<Events>, NoMemory>
        ensures { IfOk result (λ rows. rows.items ≡ self.now.ways) }
    {
        let mut rows = Vec::new(alloc);
        rows.extend_from_slice(self.ways.as_slice())?;
        Ok(rows)
    }

    /// The events that meet an event.
    pub(crate) fn met(&self, event: u32) -> &Events
        requires { event < self.now.count }
        ensures { (q : ℕ) → has result.now q ≡ meets self.now event q }
    {
        &self.pairs[event as usize]
    }

    /// The events that begin chains.
    pub(crate) fn starts(&self) -> Events
        ensures { (q : ℕ) → has result q ≡ starts self.now q }
    {
        self.begun
    }
}
