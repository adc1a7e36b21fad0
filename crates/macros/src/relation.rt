ghost use Rattle.std.specs.Prelude.{◌≡◌};
ghost use Rattle.rsml_syntax.specs.rules.Relations as relations;

use rsml_syntax::Relation;

/// Whether the relation holds between two numbers.
pub fn compare(relation: Relation, left: i64, right: i64) -> bool
    ensures { result ≡ relations.compare relation left right }
{
    match relation {
        Relation::Equal => left == right,
        Relation::NotEqual => left != right,
        Relation::Less => left < right,
        Relation::LessEqual => left <= right,
        Relation::Greater => left > right,
        Relation::GreaterEqual => left >= right,
    }
}
