ghost use Rattle.std.specs.Prelude.{◌≡◌, ◌<◌, List, IfOk, IsTrue, length};
ghost use Rattle.rsml_syntax.specs.limits.Checked.{IsChecked};
ghost use Rattle.rsml_ground.specs.declared.phrases.GroundPhrase.{GroundPhrase};
ghost use Rattle.rsml_meaning.specs.Words.{Instance};
ghost use Rattle.rsml_meaning.specs.Instances.{events};
ghost use Rattle.rsml_meaning.specs.Chains.{is_external};
ghost use Rattle.rsml_meaning.specs.Report.{IsLengthAnswer};
ghost use Rattle.ground_members.specs.Members.{AreSendCases, AreTransitions, IsEvent};
ghost use Rattle.event_chains.specs.Draws.{Draws};
ghost use Rattle.event_chains.specs.Found.{AreClashes, AreExternals, AreLooping};

use crate::answers::externals;
use crate::drawing::event_graph;
use crate::external::External;
use event_graph::{Chains as GraphChains, Clash, EventGraph};
use ground_members::{SharedSendCase, SharedTransition};
use interfaces::Interfaces;
use rsml_syntax::{Checked, NoMemory, Spec};
use state_tree::Tree;
use std::alloc::Global;
use std::marker::Model;

/// The chains of events of a specification. Events are named by their places. Only `build` takes
/// memory.
pub struct Chains<'a> {
    spec: &'a Spec,
    chains: GraphChains,
    externals: Vec<External>,
}

impl Drop for Chains<'_> {
    fn drop(self) {
        let Self {
            spec: _,
            chains: _,
            externals: _,
        } = self;
    }
}

impl<'a> Model for Chains<'a> {
    ghost use Rattle.rsml_syntax.specs.declared.syntax.Spec.{Spec};
    ghost use Rattle.rsml_syntax.specs.contracts.syntax.Body as bodies;
    ghost use Rattle.std.specs.Coded.{codes};
    ghost use Rattle.event_chains.specs.Kept.{AreKept};

    ghost Value = { Spec };

    ghost coded = { Prim.hlevel (codes, bodies.the_row.coded) };

    ghost view = { λ c. c.spec.now };

    ghost invariant = { λ c. AreKept c.spec.now c.chains c.externals.items };
}

impl<'a> Chains<'a> {
    /// The chains of a specification with this tree, these receives, transitions and cases of
    /// sends.
    pub fn build(
        alloc: Global,
        checked: &'a Checked,
        tree: &Tree<'_>,
        interfaces: &Interfaces<'_>,
        transitions: &[SharedTransition],
        send_cases: &[SharedSendCase],
    ) -> Result<Chains<'a>, NoMemory>
        requires tree { tree.now ≡ checked.now }
        requires interfaces { interfaces.now ≡ checked.now }
        requires transitions { (ps : List GroundPhrase) × AreTransitions ps checked.now transitions.now }
        requires send_cases { (ps : List GroundPhrase) × AreSendCases ps checked.now send_cases.now }
        ensures { IfOk result (λ c. c ≡ checked.now) }
    {
        let graph = event_graph(alloc, checked, tree, interfaces, transitions, send_cases)?;
        Chains::of_graph(alloc, checked, graph)
    }

    /// The chains of a graph that stands for a specification.
    fn of_graph(
        alloc: Global,
        checked: &'a Checked,
        graph: EventGraph,
    ) -> Result<Chains<'a>, NoMemory>
        requires { Draws checked.now graph }
        ensures { IfOk result (λ c. c ≡ checked.now) }
    {
        let spec = checked.spec();
        let chains = GraphChains::build(alloc, graph)?;
        let externals = externals(alloc, checked, &chains)?;
        Ok(Chains {
            spec,
            chains,
            externals,
        })
    }

    /// The external events, in order, with the length of each, if it has one, and its first clash,
    /// if it has both.
    pub fn externals(&self) -> &[External]
        ensures { AreExternals self.now result.now }
    {
        self.externals.as_slice()
    }

    /// How many events the longest chain from an external event has; none where some chain from it
    /// has an event twice.
    pub fn length(&self, event: u32) -> Option<u32>
        requires { event < length (events self.now) }
        ensures { (e : Instance) → IsEvent self.now e event → IsTrue (is_external self.now e)
            → IsLengthAnswer self.now e result }
    {
        self.chains.length(event)
    }

    /// The events that some chain has twice, rising.
    pub fn loops(&self) -> &[u32]
        ensures { AreLooping self.now result.now }
    {
        self.chains.loops()
    }

    /// For each external event in order that has a length and a clash, its first clash.
    pub fn clashes(&self) -> &[Clash]
        ensures { AreClashes self.now result.now }
    {
        self.chains.clashes()
    }

    /// The graph of the events.
    pub(crate) fn graph(&self) -> &EventGraph
        ensures draws { Draws self.now result.now }
        ensures checked { IsChecked self.now }
    {
        self.chains.graph()
    }

    /// The specification.
    pub(crate) fn spec(&self) -> &'a Spec
        ensures { result.now ≡ self.now }
    {
        self.spec
    }
}
