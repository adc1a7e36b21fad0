//! Which events begin chains.
ghost use Rattle.std.specs.Prelude.{◌≡◌, ℕ, ◌||◌, length};
ghost use Rattle.rsml_syntax.specs.limits.Checked.{IsChecked};
ghost use Rattle.rsml_meaning.specs.Words.{Instance};
ghost use Rattle.rsml_meaning.specs.Instances.{events};
ghost use Rattle.rsml_meaning.specs.Chains.{is_external};
ghost use Rattle.ground_members.specs.Members.{IsEvent};
ghost use Rattle.event_graph.specs.Graphs.{starts};

use event_graph::EventGraph;
use interfaces::Interfaces;

/// Tells that the event that each receive raises begins chains.
pub fn tell_starts(graph: &mut EventGraph, interfaces: &Interfaces<'_>)
    requires checked { IsChecked interfaces.now }
    requires count { graph.old.count ≡ length (events interfaces.now) }
    ensures starts { (a : ℕ) (e : Instance) → IsEvent interfaces.now e a
        → starts graph.new a ≡ (starts graph.old a || is_external interfaces.now e) }
    ensures count { graph.new.count ≡ graph.old.count }
    ensures leads { graph.new.ways ≡ graph.old.ways }
    ensures meets { graph.new.pairs ≡ graph.old.pairs }
{
    for receive in 0..interfaces.receives() {
        graph.start(interfaces.raised(receive));
    }
}
