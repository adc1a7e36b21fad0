ghost use Rattle.std.specs.Prelude.{◌≡◌, ◌<ℤ◌};
ghost use Rattle.rsml_syntax.specs.limits.Thresholds as thresholds;
ghost use Rattle.rsml_limits.specs.thresholds.Edges as spec;

use rsml_syntax::Relation;

/// An edge of a number: the one below it is at the number itself, the one above it at the next
/// number.
#[derive(Clone, Copy)]
pub enum Edge {
    Below,
    Above,
}

impl Edge {
    /// Whether the comparison of a cell with a number asks for this edge of the number.
    pub fn is_asked(self, relation: Relation) -> bool
        ensures { result ≡ spec.is_asked self relation }
    {
        match self {
            Edge::Below => !matches!(relation, Relation::LessEqual | Relation::Greater),
            Edge::Above => !matches!(relation, Relation::Less | Relation::GreaterEqual),
        }
    }

    /// Where this edge of a number is.
    pub fn of(self, number: i128) -> i128
        requires { number <ℤ i128.MAX }
        ensures { result ≡ spec.edge_of self number }
    {
        match self {
            Edge::Below => number,
            Edge::Above => number + 1,
        }
    }
}

/// What is asked of the right side of a comparison, with the sides swapped.
pub fn mirrored(relation: Relation) -> Relation
    ensures { result ≡ thresholds.mirrored relation }
{
    match relation {
        Relation::Less => Relation::Greater,
        Relation::LessEqual => Relation::GreaterEqual,
        Relation::Greater => Relation::Less,
        Relation::GreaterEqual => Relation::LessEqual,
        Relation::Equal => Relation::Equal,
        Relation::NotEqual => Relation::NotEqual,
    }
}
