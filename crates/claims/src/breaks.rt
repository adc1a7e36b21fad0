ghost use Rattle.claims.specs.Laws.{InductiveHaveNoBreak, NoBreakIsInductive, MomentsAreOrdered, LeastBreaksAreOne};

/// Claims are inductive exactly where all are true in the first world and none of their moments is a
/// break.
pub fn breaks_tell_inductive_claims()
    ensures none { InductiveHaveNoBreak }
    ensures inductive { NoBreakIsInductive }
{}

/// The order of moments is total, and there is one least break at most.
pub fn least_breaks_are_one()
    ensures total { MomentsAreOrdered }
    ensures one { LeastBreaksAreOne }
{}
