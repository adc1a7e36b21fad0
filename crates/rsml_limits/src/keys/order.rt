ghost use Rattle.std.specs.Prelude.{◌≡◌};
ghost use Rattle.rsml_limits.specs.keys.Numbered as spec;
ghost use Rattle.rsml_limits.specs.keys.Shown.{shown_order};

use rsml_syntax::Relation;

/// The relation of a key.
#[derive(Clone, Copy, PartialEq, Eq, Hash)]
pub enum Order {
    Equal,
    Less,
    LessEqual,
}

impl Order {
    /// The relation of the key of a comparison.
    pub fn new(relation: Relation) -> Order
        ensures { shown_order result ≡ spec.order_of relation }
    {
        match relation {
            Relation::Equal => Order::Equal,
            Relation::NotEqual => Order::Equal,
            Relation::Less => Order::Less,
            Relation::LessEqual => Order::LessEqual,
            Relation::Greater => Order::Less,
            Relation::GreaterEqual => Order::LessEqual,
        }
    }
}

/// Whether the key of a comparison has its sides swapped.
pub fn swaps(relation: Relation) -> bool
    ensures { result ≡ spec.swaps relation }
{
    matches!(relation, Relation::Greater | Relation::GreaterEqual)
}
