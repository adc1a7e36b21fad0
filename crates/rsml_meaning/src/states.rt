ghost use Rattle.rsml_meaning.specs.Laws.{StatesAreOfChildren};

/// A state stands before what is inside it, its children in order, and an array once for each index.
pub fn states_are_of_children()
    ensures { StatesAreOfChildren }
{}
