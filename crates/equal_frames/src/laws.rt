ghost use Rattle.equal_frames.specs.Laws.{FramesGiveWorlds, FramesGiveMembers, DifferenceIsOne, FramesReadAlike, EqualGuardsMoveRuns, EqualGuardsTraceAlike};

use rsml_meaning::event_files_have_one_run;

/// Specifications of one frame have the same worlds, the same states and the same cells, and place by
/// place the same members but for their guards.
pub fn frame_laws()
    ensures worlds { FramesGiveWorlds }
    ensures members { FramesGiveMembers }
{}

/// Two specifications have one first difference at most.
pub fn difference_is_one()
    ensures { DifferenceIsOne }
{}

/// Specifications of one frame find the same first fault in every event file, and the same lines before it.
pub fn lines_are_read_alike()
    ensures { FramesReadAlike }
{}

/// Where no member of two specifications of one frame differs in any world, each run of the first is written
/// as some run of the second. No certificate is needed for that.
pub fn equal_guards_move_runs()
    ensures { EqualGuardsMoveRuns }
{}

/// Where no member of two specifications of one frame differs in any world and the first is certified,
/// so is the second, and of every event file the two write the same trace.
pub fn equal_guards_trace_alike()
    ensures { EqualGuardsTraceAlike }
{
    event_files_have_one_run();
}
