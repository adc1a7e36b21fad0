ghost use Rattle.std.specs.Prelude.{◌≡◌, [], IfOk};
ghost use Rattle.rsml_meaning.specs.Certified.{Certified};
ghost use Rattle.rsml_meaning.specs.EventFiles.{program_limits, IsWellFormed};
ghost use Rattle.rsml_meaning.specs.Runs.{first_world};
ghost use Rattle.run_counts.specs.Counts.{HasCounts, counts_of};
ghost use Rattle.run_counts.specs.Ready.{IsReady};

use crate::counts::Counts;
use crate::lines::count_lines;
use crate::progress::Progress;
use elaborate::Machine;
use event_lines::LineForms;
use micro_step::Scratch;
use rsml_syntax::{Checked, NoMemory};
use std::alloc::Global;

/// The first world of a machine, with nothing counted.
fn start(alloc: Global, machine: &Machine<'_>) -> Result<Progress, NoMemory>
    ensures ready { IfOk result (λ progress. IsReady machine.now progress) }
    ensures first { IfOk result (λ progress. progress.world ≡ first_world machine.now.base.spec) }
    ensures none { IfOk result (λ progress. progress.counts ≡ counts_of []) }
{
    let scratch = Scratch::new(alloc, machine)?;
    let world = machine.initial(alloc)?;
    let counts = Counts {
        events: 0,
        rounds: 0,
        takes: 0,
        moves: 0,
    };
    Ok(Progress {
        scratch,
        world,
        counts,
    })
}

/// Counts the run of a well-formed event file of a certified specification. The only error is out of memory.
pub fn count_run(
    alloc: Global,
    checked: &Checked,
    machine: &Machine<'_>,
    text: &[u8],
) -> Result<Counts, NoMemory>
    requires machine { machine.now.base.spec ≡ checked.now }
    requires certified { Certified checked.now }
    requires formed { IsWellFormed checked.now program_limits text.now }
    ensures { IfOk result (HasCounts checked.now text.now) }
{
    let forms = LineForms::build(alloc, checked)?;
    let mut values = vec![in alloc; 0i64; forms.most_fields()]?;
    let mut progress = start(alloc, machine)?;
    count_lines(machine, &forms, values.as_mut_slice(), &mut progress, text);
    Ok(progress.counts)
}
