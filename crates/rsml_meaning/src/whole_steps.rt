ghost use Rattle.rsml_meaning.specs.RunLaws.{StepsAreOne, EventsHaveLengths, StepsAreShort};

/// In a certified specification a step on an external event comes to one thing, from every world: its
/// rounds with their present events, taken transitions, send cases and values, and the last world.
/// The event has a length, and the step has at most as many rounds.
pub fn steps_have_one_result()
    ensures one { StepsAreOne }
    ensures lengths { EventsHaveLengths }
    ensures short { StepsAreShort }
{}
