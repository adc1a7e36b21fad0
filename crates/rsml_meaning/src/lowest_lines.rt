ghost use Rattle.rsml_meaning.specs.RunLaws.{LowestLinesEnableOne, SourcesHaveLowestLines};

/// In a certified specification, in every world, exactly one transition is enabled on each lowest
/// active line for each event. At or below each active source of a transition on an event there is
/// such a line.
pub fn lowest_lines_enable_one()
    ensures one { LowestLinesEnableOne }
    ensures lowest { SourcesHaveLowestLines }
{}
