//! How far one number is at most above another, where a comparison of the two is true or false.
ghost use Rattle.std.specs.Prelude.{◌≡◌, ℤ, IfSome, None, Some, if◌then◌else◌};
ghost use Rattle.rsml_syntax.specs.rules.Relations as relations;
ghost use Rattle.phrase_diagrams.specs.Signs.{IsWithin};
ghost use Rattle.settled_worlds.specs.Conflicts.{IsMargin};

use rsml_syntax::Relation;

/// How far the first number is at most above the second, where the relation has this truth.
pub(crate) fn margin(relation: Relation, truth: bool) -> Option<i64>
    ensures margin { IfSome result (IsMargin relation truth) }
    ensures small { IfSome result (IsWithin 1) }
{
    match relation {
        Relation::Equal | Relation::LessEqual => when(truth, 0),
        Relation::Less => when(truth, -1),
        Relation::NotEqual | Relation::Greater => when(!truth, 0),
        Relation::GreaterEqual => when(!truth, -1),
    }
}

/// A number, where that is so.
fn when(so: bool, number: i64) -> Option<i64>
    ensures { result ≡ (if so then Some number else None) }
{
    if so { Some(number) } else { None }
}

/// The relation in which the second number stands to the first.
pub(crate) fn turned(relation: Relation) -> Relation
    ensures { (x y : ℤ) → relations.compare result y x ≡ relations.compare relation x y }
{
    match relation {
        Relation::Equal => Relation::Equal,
        Relation::NotEqual => Relation::NotEqual,
        Relation::Less => Relation::Greater,
        Relation::LessEqual => Relation::GreaterEqual,
        Relation::Greater => Relation::Less,
        Relation::GreaterEqual => Relation::LessEqual,
    }
}
