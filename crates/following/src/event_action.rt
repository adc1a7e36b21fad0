/// What a command does with a certified specification and an event file.
#[derive(Clone, Copy, Debug, PartialEq, Eq)]
pub enum EventAction {
    /// Writes the trace of its run.
    Simulate,
    /// Writes how often its run takes each transition and makes each column true.
    Cover,
    /// Writes the same, and comment lines behind it.
    ExplainCover,
}
