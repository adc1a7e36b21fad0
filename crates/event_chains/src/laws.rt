ghost use Rattle.event_chains.specs.Laws.{LengthsAgree, LoopsAgree, EndsAgree, ClashesAgree, FirstClashesAgree, NoneFoundIsNone, ExternalsAnswer};

/// What a graph answers that stands for a specification is what the specification says.
pub fn a_graph_answers()
    ensures lengths { LengthsAgree }
    ensures loops { LoopsAgree }
    ensures ends { EndsAgree }
    ensures clashes { ClashesAgree }
    ensures first { FirstClashesAgree }
{}

/// No event loops and there is no clash exactly where no loops and no clashes are found.
pub fn none_found_is_none()
    ensures { NoneFoundIsNone }
{}

/// What is found of the external events is what a report answers of them.
pub fn external_events_answer()
    ensures { ExternalsAnswer }
{}
