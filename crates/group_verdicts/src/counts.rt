ghost use Rattle.std.specs.Prelude.{◌≡◌, IfOk};
ghost use Rattle.guard_encode.specs.Encoding.{Encoding};
ghost use Rattle.group_verdicts.specs.Counts.{AreCounts};

use crate::kept::Kept;
use elaborate::Machine;
use rsml_base::NoMemory;
use std::alloc::Global;

/// What is known of each transition: where it is enabled, and where one or more, and where two or more, of the members up to it
/// are. That is the same in each group that it is a member of.
pub struct Counts {
    pub(crate) enabled: Kept,
    pub(crate) some: Kept,
    pub(crate) two: Kept,
}

impl Drop for Counts {
    fn drop(self) {
        let Self {
            enabled: _,
            some: _,
            two: _,
        } = self;
    }
}

impl Counts {
    /// A place for each transition of a machine, of which nothing is known.
    pub fn new(alloc: Global, machine: &Machine<'_>) -> Result<Counts, NoMemory>
        ensures { IfOk result (λ counts. (e : Encoding) → e.machine ≡ machine.now → AreCounts e counts) }
    {
        machine.law();
        let transitions = machine.transitions() as usize;
        let enabled = Kept::new(alloc, transitions)?;
        let some = Kept::new(alloc, transitions)?;
        let two = Kept::new(alloc, transitions)?;
        Ok(Counts { enabled, some, two })
    }
}
