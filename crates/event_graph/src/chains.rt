ghost use Rattle.std.specs.Prelude.{◌≡◌, ◌<◌, true, false, None, IfOk};
ghost use Rattle.event_graph.specs.Graphs.{starts};
ghost use Rattle.event_graph.specs.Chains.{IsLengthAnswer, Endless};
ghost use Rattle.event_graph.specs.Reached.{AreLoops};
ghost use Rattle.event_graph.specs.Clashes.{IsClashAnswer, AreAllClashes};

use crate::answers::Answers;
use crate::clash::Clash;
use crate::graph::EventGraph;
use rsml_base::NoMemory;
use std::alloc::Global;
use std::marker::Model;

/// A graph with the lengths, the loops and the first clashes of its chains. Contracts see the
/// graph.
pub struct Chains {
    graph: EventGraph,
    answers: Answers,
}

impl Drop for Chains {
    fn drop(self) {
        let Self {
            graph: _,
            answers: _,
        } = self;
    }
}

impl Model for Chains {
    ghost use Rattle.event_graph.specs.Graphs.{Graph};
    ghost use Rattle.event_graph.specs.Clashes.{AreAnswers};

    ghost Value = { Graph };

    ghost view = { λ c. c.graph };

    ghost invariant = { λ c. AreAnswers c.graph c.answers.lengths.items c.answers.loops.items
        c.answers.firsts.items c.answers.clashes.items };
}

impl Chains {
    /// The chains of a graph.
    pub fn build(alloc: Global, graph: EventGraph) -> Result<Chains, NoMemory>
        ensures { IfOk result (λ chains. chains ≡ graph) }
    {
        let answers = Answers::new(alloc, &graph)?;
        Ok(Chains { graph, answers })
    }

    /// The graph.
    pub fn graph(&self) -> &EventGraph
        ensures { result.now ≡ self.now }
    {
        &self.graph
    }

    /// How many events the longest chain from an event has; none exactly where some chain from it
    /// has an event twice.
    pub fn length(&self, event: u32) -> Option<u32>
        requires { event < self.now.count }
        ensures answer { IsLengthAnswer self.now event result }
        ensures endless { Endless self.now event → result ≡ None }
    {
        self.answers.lengths[event as usize]
    }

    /// The events that some chain that begins with a start has twice, rising.
    pub fn loops(&self) -> &[u32]
        ensures { AreLoops self.now result.now }
    {
        self.answers.loops.as_slice()
    }

    /// The first clash of an event that begins chains, if it has a length and a clash.
    pub fn clash(&self, event: u32) -> Option<Clash>
        requires { event < self.now.count }
        ensures start { starts self.now event ≡ true → IsClashAnswer self.now event result }
        ensures other { starts self.now event ≡ false → result ≡ None }
    {
        self.answers.firsts[event as usize]
    }

    /// The first clashes that there are, in the order of the events that begin their chains.
    pub fn clashes(&self) -> &[Clash]
        ensures { AreAllClashes self.now result.now }
    {
        self.answers.clashes.as_slice()
    }
}
