ghost use Rattle.std.specs.Prelude.{◌≡◌, ◌+◌, ◌*◌, ◌<◌, ◌≤◌, ◌^◌, [], None, length};
ghost use Rattle.rsml_meaning.specs.Words.{Each};
ghost use Rattle.rsml_meaning.specs.Certified.{Certified};
ghost use Rattle.rsml_meaning.specs.EventFiles.{program_limits, IsWellFormed};
ghost use Rattle.rsml_meaning.specs.Interfaces.{receives};
ghost use Rattle.rsml_meaning.specs.Runs.{first_world};
ghost use Rattle.simulator.specs.helpers.Turns.{rule_in, said};
ghost use Rattle.run_counts.specs.Counts.{HasCounts, counts_of};
ghost use Rattle.run_counts.specs.Lines.{LineIsCounted};
ghost use Rattle.run_counts.specs.Ready.{IsReady};

use crate::events::count_told;
use crate::progress::Progress;
use elaborate::Machine;
use event_file::{Piece, cut, skipped};
use event_lines::LineForms;

/// Does the step of the event that a line tells, if it tells one, and counts it. The line breaks no rule.
fn count_line(
    machine: &Machine<'_>,
    forms: &LineForms<'_>,
    values: &mut [i64],
    progress: &mut Progress,
    line: &[u8],
)
    requires certified { Certified machine.now.base.spec }
    requires forms { forms.now ≡ machine.now.base.spec }
    requires values { Each (λ x. length x.inputs ≤ length values.old) (receives machine.now.base.spec) }
    requires sound { rule_in (said machine.now.base.spec line.now) ≡ None }
    requires ready { IsReady machine.now progress.old }
    requires room { progress.old.counts.events + 1 < 2 ^ 36 }
    requires few { progress.old.counts.rounds ≤ 1024 * progress.old.counts.events }
    ensures ready { IsReady machine.now progress.new }
    ensures one { progress.new.counts.events ≤ progress.old.counts.events + 1 }
    ensures few { progress.new.counts.rounds ≤ 1024 * progress.new.counts.events }
    ensures counted { LineIsCounted machine.now.base.spec (said machine.now.base.spec line.now)
        progress.old.world progress.new.world progress.old.counts progress.new.counts }
{
    if skipped(line) {
        return;
    }
    match forms.read_line(line, values) {
        Ok(received) => count_told(machine, progress, received.interface, values),
        Err(_) => {}
    }
}

/// Goes over the lines of a well-formed event file, and counts the steps of its events.
pub fn count_lines(
    machine: &Machine<'_>,
    forms: &LineForms<'_>,
    values: &mut [i64],
    progress: &mut Progress,
    text: &[u8],
)
    requires certified { Certified machine.now.base.spec }
    requires forms { forms.now ≡ machine.now.base.spec }
    requires values { Each (λ x. length x.inputs ≤ length values.old) (receives machine.now.base.spec) }
    requires formed { IsWellFormed machine.now.base.spec program_limits text.now }
    requires ready { IsReady machine.now progress.old }
    requires first { progress.old.world ≡ first_world machine.now.base.spec }
    requires none { progress.old.counts ≡ counts_of [] }
    ensures { HasCounts machine.now.base.spec text.now progress.new.counts }
{
    let mut at = 0;
    'lines: loop {
        match cut(text, at, 4096) {
            Piece::Line { end, after } => {
                count_line(machine, forms, values, progress, &text[at..end]);
                at = after;
            }
            Piece::LineTooLong => return,
            Piece::End => return,
        }
    }
}
