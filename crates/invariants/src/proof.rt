use event_graph::Events;
use rsml_syntax::World;

/// The least break of claims. Events and transitions are named by their places among the instances.
pub struct Break {
    /// The external event that the step is on.
    pub start: u32,
    /// The round of the step, counted from 1.
    pub round: u32,
    /// The events that are present.
    pub present: Events,
    /// The world before the micro-step.
    pub world: World,
    /// The transitions that are taken, rising.
    pub taken: Vec<u32>,
    /// The place of the first claim that is false in the world that is left.
    pub claim: usize,
}

impl Drop for Break {
    fn drop(self) {
        let Self {
            start: _,
            round: _,
            present: _,
            world: _,
            taken: _,
            claim: _,
        } = self;
    }
}

/// What is proved of claims.
#[derive(Drop)]
pub enum Proof {
    /// They are inductive.
    Inductive,
    /// The claim at a place is false in the first world, and none before it.
    Initial { claim: usize },
    /// They are true in the first world, and have this least break.
    Breaks(Break),
}
