//! Laws that a call of this function tells its caller. It does nothing.
ghost use Rattle.world_levels.specs.Laws.{AllSpellAWorld, EachWorldIsSpelled, FreeLevelsStay, FreeLevelsSpellNothing, CellLevelsSpellTheirCell};

/// All values of the levels spell a world, and each world is spelled, whatever values the free levels have. A free level spells
/// nothing, and a level of a cell nothing but that cell.
pub fn world_laws()
    ensures all { AllSpellAWorld }
    ensures each { EachWorldIsSpelled }
    ensures free { FreeLevelsStay }
    ensures nothing { FreeLevelsSpellNothing }
    ensures cell { CellLevelsSpellTheirCell }
{}
