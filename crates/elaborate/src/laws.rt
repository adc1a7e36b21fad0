ghost use Rattle.elaborate.specs.Laws.{MembersAreEnabledAsInTheText, ConditionsAreThoseOfTheText};
ghost use Rattle.elaborate.specs.Laws.{CountsAreThoseOfTheText, SoundnessIsThatOfTheText};

/// A member of a group is enabled in a world exactly where that of the text is, and as many members are enabled.
pub fn members_are_enabled_as_in_the_text()
    ensures each { MembersAreEnabledAsInTheText }
    ensures count { CountsAreThoseOfTheText }
{}

/// The condition of a group holds in a world exactly where that of the text does.
pub fn conditions_are_those_of_the_text()
    ensures { ConditionsAreThoseOfTheText }
{}

/// A group is sound exactly where that of the text is.
pub fn soundness_is_that_of_the_text()
    ensures { SoundnessIsThatOfTheText }
{}
