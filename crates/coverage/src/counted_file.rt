use crate::counts::Counts;
use simulator::{SimEnd, Simulator};

/// What was counted of an event file, and how that ended.
pub struct CountedFile<'m, 'a> {
    pub end: SimEnd,
    pub counts: Counts<'m, 'a>,
    pub(crate) simulator: Simulator<'m, 'a>,
}

impl Drop for CountedFile<'_, '_> {
    fn drop(self) {
        let Self {
            end: _,
            counts: _,
            simulator: _,
        } = self;
    }
}

impl<'m, 'a> CountedFile<'m, 'a> {
    /// The last line that was read, without one CR at its end: where counting ended at a fault of a line, this one.
    pub fn line(&self) -> &[u8] {
        let _ = &self.counts;
        self.simulator.line()
    }
}
