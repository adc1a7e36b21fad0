ghost use Rattle.rsml_meaning.specs.RunLaws.{RunsEndInTime, LinesHaveOneRun, EventFilesHaveOneRun};

/// Every well-formed event file has exactly one run of a certified specification; so have any lines of
/// an event file, as those before a fault. Each step of a run ends within the length of its event.
pub fn event_files_have_one_run()
    ensures one { EventFilesHaveOneRun }
    ensures lines { LinesHaveOneRun }
    ensures time { RunsEndInTime }
{}
