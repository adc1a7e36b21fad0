ghost use Rattle.claims.specs.Laws.{InductiveClaimsHold};

/// Claims that are inductive are true in the first world, in each world that an event is latched in and
/// in the world after each micro-step, in every run of every event file. This rests on no certificate.
pub fn inductive_claims_hold()
    ensures { InductiveClaimsHold }
{}
