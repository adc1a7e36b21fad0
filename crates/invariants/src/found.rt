use event_graph::Events;
use rsml_syntax::World;

/// A set of events, and the least world from which a micro-step on them turns claims false.
#[derive(Drop)]
pub struct Broken {
    pub events: Events,
    pub world: World,
}

/// The same in a round of a step on an external event.
#[derive(Drop)]
pub struct Found {
    pub start: u32,
    pub round: u32,
    pub broken: Broken,
}
