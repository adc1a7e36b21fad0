ghost use Rattle.demonstrating.specs.Laws.{DemoEventsAreWellFormed, DemosAreCertified};

/// The text with 1 to 64 units reads as the plant with so many, which keeps the rules and limits and
/// is certified.
pub fn demos_are_certified()
    ensures { DemosAreCertified }
{}

/// The events for 1 to 64 units are 1,000 lines, and a well-formed event file of the plant with so
/// many.
pub fn demo_events_are_well_formed()
    ensures { DemoEventsAreWellFormed }
{}
