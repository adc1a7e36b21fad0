ghost use Rattle.std.specs.Prelude.{◌≡◌};
ghost use Rattle.macros.specs.Sought as spec;

use crate::relation::compare;
use rsml_syntax::Relation;

/// Which value of a function is sought: any, or one that stands in the relation to the constant.
#[derive(Clone, Copy, Debug)]
pub enum Sought {
    Any,
    Compared { relation: Relation, constant: i64 },
}

impl Sought {
    /// Whether a value is sought.
    pub fn takes(self, value: i64) -> bool
        ensures { result ≡ spec.is_sought self value }
    {
        match self {
            Sought::Any => true,
            Sought::Compared { relation, constant } => compare(relation, value, constant),
        }
    }
}
