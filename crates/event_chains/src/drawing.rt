ghost use Rattle.std.specs.Prelude.{◌≡◌, List, IfOk};
ghost use Rattle.rsml_ground.specs.declared.phrases.GroundPhrase.{GroundPhrase};
ghost use Rattle.ground_members.specs.Members.{AreSendCases, AreTransitions};
ghost use Rattle.event_chains.specs.Draws.{Draws};

use crate::count::event_count;
use crate::leads::tell_leads;
use crate::meetings::{meet_in_sends, meet_on_lines};
use crate::reaction::{sends, sources};
use crate::starts::tell_starts;
use event_graph::EventGraph;
use ground_members::{SharedSendCase, SharedTransition};
use interfaces::Interfaces;
use rsml_syntax::{Checked, NoMemory};
use state_tree::Tree;
use std::alloc::Global;

/// The graph of the events of a specification, by their places, with this tree, these receives,
/// transitions and cases of sends.
pub fn event_graph(
    alloc: Global,
    checked: &Checked,
    tree: &Tree<'_>,
    interfaces: &Interfaces<'_>,
    transitions: &[SharedTransition],
    send_cases: &[SharedSendCase],
) -> Result<EventGraph, NoMemory>
    requires tree { tree.now ≡ checked.now }
    requires interfaces { interfaces.now ≡ checked.now }
    requires transitions { (ps : List GroundPhrase) × AreTransitions ps checked.now transitions.now }
    requires send_cases { (ps : List GroundPhrase) × AreSendCases ps checked.now send_cases.now }
    ensures { IfOk result (λ g. Draws checked.now g) }
{
    let _ = checked.spec();
    let sources = sources(alloc, transitions)?;
    let sends = sends(alloc, send_cases)?;
    let count = event_count(alloc, checked)?;
    let mut graph = EventGraph::new(alloc, count)?;
    tell_leads(&mut graph, transitions);
    tell_starts(&mut graph, interfaces);
    meet_on_lines(alloc, &mut graph, tree, sources.as_slice())?;
    meet_in_sends(alloc, &mut graph, sends.as_slice())?;
    let _ = graph.count();
    Ok(graph)
}
