//! Which events lead to which.
ghost use Rattle.std.specs.Prelude.{◌≡◌, ℕ, ◌<◌, ◌==◌, ◌&&◌, ◌||◌};
ghost use Rattle.std.specs.List.{list_any};
ghost use Rattle.rsml_meaning.specs.Words.{Each};
ghost use Rattle.event_graph.specs.Graphs.{leads};
ghost use Rattle.event_chains.specs.Reactions.{leads_by};

use event_graph::EventGraph;
use ground_members::SharedTransition;

/// Tells that the event of each transition leads to those that it raises.
pub fn tell_leads(graph: &mut EventGraph, transitions: &[SharedTransition])
    requires events { Each (λ t. t.event < graph.old.count) transitions.now }
    requires raises { Each (λ t. Each (λ r. r < graph.old.count) t.raises) transitions.now }
    ensures leads { (a b : ℕ) → leads graph.new a b
        ≡ (leads graph.old a b || leads_by transitions.now a b) }
    ensures count { graph.new.count ≡ graph.old.count }
    ensures starts { graph.new.begun ≡ graph.old.begun }
    ensures meets { graph.new.pairs ≡ graph.old.pairs }
{
    for transition in transitions {
        lead_to(graph, transition.event(), transition.raises());
    }
}

// Tells that an event leads to each of these.
fn lead_to(graph: &mut EventGraph, from: u32, raised: &[u32])
    requires from { from < graph.old.count }
    requires raised { Each (λ r. r < graph.old.count) raised.now }
    ensures leads { (a b : ℕ) → leads graph.new a b
        ≡ (leads graph.old a b || (from == a && list_any (λ r. r == b) raised.now)) }
    ensures count { graph.new.count ≡ graph.old.count }
    ensures starts { graph.new.begun ≡ graph.old.begun }
    ensures meets { graph.new.pairs ≡ graph.old.pairs }
{
    for to in raised {
        graph.lead(from, *to);
    }
}
