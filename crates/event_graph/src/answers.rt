ghost use Rattle.std.specs.Prelude.{IfOk};
ghost use Rattle.event_graph.specs.Clashes.{AreAnswers};

use crate::clash::Clash;
use crate::clashes::{all_clashes, firsts};
use crate::graph::EventGraph;
use crate::lengths::lengths;
use crate::loops::{loops, reached};
use rsml_base::NoMemory;
use std::alloc::Global;

/// The lengths, the loops and the first clashes of a graph.
pub struct Answers {
    pub lengths: Vec<Option<u32>>,
    pub loops: Vec<u32>,
    pub firsts: Vec<Option<Clash>>,
    pub clashes: Vec<Clash>,
}

impl Drop for Answers {
    fn drop(self) {
        let Self {
            lengths: _,
            loops: _,
            firsts: _,
            clashes: _,
        } = self;
    }
}

impl Answers {
    /// The answers on the chains of a graph.
    pub fn new(alloc: Global, graph: &EventGraph) -> Result<Answers, NoMemory>
        ensures { IfOk result (λ a. AreAnswers graph.now a.lengths.items a.loops.items
            a.firsts.items a.clashes.items) }
    {
        let sets = reached(alloc, graph)?;
        let lengths = lengths(alloc, graph)?;
        let loops = loops(alloc, graph, sets.as_slice())?;
        let firsts = firsts(alloc, graph, lengths.as_slice(), sets.as_slice())?;
        let clashes = all_clashes(alloc, firsts.as_slice())?;
        Ok(Answers {
            lengths,
            loops,
            firsts,
            clashes,
        })
    }
}
