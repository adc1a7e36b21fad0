use event_chains::{Clash, External};
use finding_texts::Verdict;

/// What is found of a specification.
#[derive(Drop)]
pub struct Found<'f> {
    /// How many groups there are.
    pub groups: u32,
    /// The external events, in order.
    pub externals: &'f [External],
    /// The events that loop, rising.
    pub loops: &'f [u32],
    /// The first clashes of the external events that have one, in order.
    pub clashes: &'f [Clash],
    /// What is found of each group, in order.
    pub verdicts: &'f [Verdict],
}
