//! Laws that a call of this function tells its caller. It does nothing.
ghost use Rattle.world_columns.specs.Laws.{ColumnsLieInTheSet, ColumnsAreDisjoint, MoreIsExact, GapsAreOne, LyingIsPassing, PassingOneAfterAnother};

use rsml_meaning::worlds_are_ordered;

/// The columns of a set hold worlds of the set alone, no two of them share a world, and more is told exactly where a world of the
/// set lies in none. A set has one list of columns of at most so many.
pub fn column_laws()
    ensures inside { ColumnsLieInTheSet }
    ensures disjoint { ColumnsAreDisjoint }
    ensures more { MoreIsExact }
    ensures one { GapsAreOne }
{
    worlds_are_ordered();
}

/// A world lies in a column where its parts pass one after another, and so can be split at any part.
pub fn passing_laws()
    ensures lying { LyingIsPassing }
    ensures split { PassingOneAfterAnother }
{}
