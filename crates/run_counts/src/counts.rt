/// How many events, rounds, takes and moves a run has.
#[derive(Clone, Copy, Debug, PartialEq, Eq)]
pub struct Counts {
    /// The lines that tell an event.
    pub events: u64,
    /// The rounds of the steps of all events.
    pub rounds: u64,
    /// The transitions that all rounds took.
    pub takes: u64,
    /// Those of them that are moves and not stays.
    pub moves: u64,
}
