ghost use Rattle.rsml_meaning.specs.Laws.{WorldsAreOrdered, WorldsAreApart, MovesApartCommute};

/// The order of worlds is total, and of two worlds that are not one, one is before the other.
pub fn worlds_are_ordered()
    ensures total { WorldsAreOrdered }
    ensures apart { WorldsAreApart }
{}

/// Moves of components that are not on one line give the same in either order.
pub fn moves_apart_commute()
    ensures { MovesApartCommute }
{}
