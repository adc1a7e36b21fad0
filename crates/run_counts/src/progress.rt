use crate::counts::Counts;
use micro_step::Scratch;
use rsml_syntax::World;

/// How far a run has come: its world, what was counted, and what is kept for its steps.
pub struct Progress {
    pub scratch: Scratch,
    pub world: World,
    pub counts: Counts,
}

impl Drop for Progress {
    fn drop(self) {
        let Self {
            scratch: _,
            world: _,
            counts: _,
        } = self;
    }
}
