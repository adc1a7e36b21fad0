ghost use Rattle.text_writer.specs.Laws.{NothingChangesNothing, PiecesAreOne};

/// To write no bytes leaves the text as it was, a whole writer whole, and a refused one refused.
pub fn writing_nothing_changes_nothing()
    ensures { NothingChangesNothing }
{}

/// To write one piece and then another is to write both as one.
pub fn pieces_are_one_writing()
    ensures { PiecesAreOne }
{}
