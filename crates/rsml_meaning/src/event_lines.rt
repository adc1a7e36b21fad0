ghost use Rattle.rsml_meaning.specs.Laws.{LinesBreakRules, LinesTellEvents};

/// Reading an event line gives the lowest rule that it breaks, or where it breaks none, its event: that
/// of the receive instance that its first word names, with the numbers of its fields.
pub fn lines_break_the_lowest_rule()
    ensures breaks { LinesBreakRules }
    ensures tells { LinesTellEvents }
{}
