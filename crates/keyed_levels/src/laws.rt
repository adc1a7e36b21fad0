//! Laws that a call of this function tells its caller. It does nothing.
ghost use Rattle.keyed_levels.specs.Laws.{LawfulValuesSpellWorlds, EachWorldIsSpelledLawfully, TheyAreKeys, TellsOn, FalseInAllWorlds};

use world_levels::world_laws;

/// Lawful values spell worlds, and each world is spelled by some. The levels of comparisons are keys. What a function tells, it
/// tells in later arenas too, and a function that is false at all lawful values tells what is true of no world, and the other
/// way round.
pub fn keyed_laws()
    ensures worlds { LawfulValuesSpellWorlds }
    ensures each { EachWorldIsSpelledLawfully }
    ensures keys { TheyAreKeys }
    ensures on { TellsOn }
    ensures none { FalseInAllWorlds }
{
    world_laws();
}
