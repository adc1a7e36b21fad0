//! Laws that a call of these functions tells its caller. They do nothing.
ghost use Rattle.free_levels.specs.Laws.{ExactLaw, SkipLaw, ForgetLaw, TurnLaw, WidenLaw, SettleLaw, StopLaw, UnreachedLaw, FixLaw, SpelledLaw, IgnoreLaw, WorldLaw, LeastLaw};

/// The laws of stages: each step is one, one after another is one, and one from all keys to none,
/// or to a function that is false, has settled.
pub fn stage_laws()
    ensures exact { ExactLaw }
    ensures skip { SkipLaw }
    ensures forget { ForgetLaw }
    ensures turn { TurnLaw }
    ensures widen { WidenLaw }
    ensures settle { SettleLaw }
    ensures stop { StopLaw }
{}

/// The laws of single levels: one that no node has changes nothing, and one that is given a value
/// has it from then on.
pub fn level_laws()
    ensures unreached { UnreachedLaw }
    ensures fix { FixLaw }
{}

/// What the clauses of a settled function say of worlds that values of the levels spell.
pub fn world_laws()
    ensures spelled { SpelledLaw }
    ensures ignore { IgnoreLaw }
    ensures world { WorldLaw }
    ensures least { LeastLaw }
{}
