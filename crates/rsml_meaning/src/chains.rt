ghost use Rattle.rsml_meaning.specs.Laws.{LengthExcludesEndless, LengthOrEndless};

/// An external event either has a length, or some chain from it has an event twice.
pub fn an_event_has_a_length_or_a_loop()
    ensures not_both { LengthExcludesEndless }
    ensures one { LengthOrEndless }
{}
