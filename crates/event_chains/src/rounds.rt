ghost use Rattle.std.specs.Prelude.{◌≡◌, ℕ, ◌+◌, ◌<◌, ◌≤◌, IsTrue, length};
ghost use Rattle.rsml_meaning.specs.Words.{Instance};
ghost use Rattle.rsml_meaning.specs.Instances.{events};
ghost use Rattle.rsml_meaning.specs.Chains.{is_external};
ghost use Rattle.ground_members.specs.Members.{IsEvent};
ghost use Rattle.event_graph.specs.Sets.{has};
ghost use Rattle.event_chains.specs.Rounds.{IsRound};

use crate::chains::Chains;
use event_graph::Rounds as GraphRounds;
use rsml_syntax::Spec;
use std::marker::Model;

/// The events that end chains of so many events from an external event, round by round: a chain of
/// the first round is that event alone. It takes no memory.
#[derive(Drop)]
pub struct Rounds<'c> {
    spec: &'c Spec,
    rounds: GraphRounds<'c>,
}

impl<'c> Model for Rounds<'c> {
    ghost use Rattle.rsml_syntax.specs.contracts.syntax.Body as bodies;
    ghost use Rattle.std.specs.Coded.{codes};
    ghost use Rattle.event_chains.specs.Rounds.{Round};
    ghost use Rattle.event_chains.specs.Kept.{AreRounds};

    ghost Value = { Round };

    ghost coded = { Prim.hlevel (codes, bodies.the_row.coded) };

    ghost view = { λ r. record { spec = r.spec.now; ends = r.rounds.ends } };

    ghost invariant = { λ r. AreRounds r.spec.now r.rounds };
}

impl<'c> Rounds<'c> {
    /// No round yet.
    pub fn new(chains: &'c Chains<'c>) -> Rounds<'c>
        ensures { result.spec ≡ chains.now }
    {
        Rounds {
            spec: chains.spec(),
            rounds: GraphRounds::new(chains.graph()),
        }
    }

    /// The first round of an external event.
    pub fn first(&mut self, event: u32)
        requires { event < length (events self.old.spec) }
        ensures round { (x : Instance) → IsEvent self.old.spec x event
            → IsTrue (is_external self.old.spec x) → IsRound self.new x 1 }
        ensures spec { self.new.spec ≡ self.old.spec }
    {
        self.rounds.first(event);
    }

    /// The next round of the same event.
    pub fn next(&mut self)
        ensures round { (x : Instance) (n : ℕ) → IsTrue (is_external self.old.spec x) → 1 ≤ n
            → IsRound self.old x n → IsRound self.new x (n + 1) }
        ensures spec { self.new.spec ≡ self.old.spec }
    {
        let _ = self.rounds.graph();
        self.rounds.next();
    }

    /// Whether an event ends a chain of this round.
    pub fn has(&self, event: u32) -> bool
        requires { event < length (events self.now.spec) }
        ensures { result ≡ has self.now.ends event }
    {
        self.rounds.has(event)
    }
}
