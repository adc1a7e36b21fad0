ghost use Rattle.claims.specs.Laws.{NextWorldsAreLeft, BreaksTurnFalse};

/// In a certified specification a micro-step at a moment that may come leaves the next world; so a
/// break is a moment at which the claims turn false in the next world.
pub fn next_worlds_tell_breaks()
    ensures left { NextWorldsAreLeft }
    ensures breaks { BreaksTurnFalse }
{}
