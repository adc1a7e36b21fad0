ghost use Rattle.coverage.specs.Laws.{WhatReactsIsTaken};

/// A round takes a transition exactly where that reacts in it, and a case of a send is enabled exactly
/// where that does.
pub fn what_reacts_is_taken()
    ensures { WhatReactsIsTaken }
{}
