//! Whether an index is right where it stands (S6), and sizes are (S5).
ghost use Rattle.std.specs.Prelude.{◌≡◌};
ghost use Rattle.rsml_syntax.specs.rules.Scopes as spec;
ghost use Rattle.rsml_syntax.specs.rules.Uses as uses;

use rsml_names::{Globals, NameTables, Scope};
use rsml_syntax::{Amount, Index, Text};

/// The greatest size, and the greatest bound of a quantifier.
const GREATEST_SIZE: i64 = 64;

/// 1 to the highest.
pub fn is_up_to(highest: i64, number: i64) -> bool
    ensures { result ≡ spec.is_up_to highest number }
{
    1 <= number && number <= highest
}

/// Whether a name is an index up to a size.
fn is_name_index(globals: &Globals<'_>, scope: &Scope<'_>, size: i64, name: &Text) -> bool
    ensures { result
        ≡ spec.is_name_index globals.now size name.now (spec.bound_of scope.now name.now) }
{
    match scope.bound_of(name) {
        Some(bound) => bound <= size,
        None => match globals.constant(name) {
            Some(number) => is_up_to(size, number),
            None => false,
        },
    }
}

/// Whether the index, or that there is none, is right at a name of this size.
pub fn is_indexed(
    globals: &Globals<'_>,
    scope: &Scope<'_>,
    size: Option<i64>,
    index: &Option<Index>,
) -> bool
    ensures { result ≡ spec.is_indexed globals.now scope.now size index.now }
{
    let size = match size {
        Some(size) => size,
        None => return index.is_none(),
    };
    match index {
        None => false,
        Some(Index::Number(number)) => is_up_to(size, i64::from(*number)),
        Some(Index::Name(name)) => is_name_index(globals, scope, size, name),
        Some(Index::This) => match scope.this {
            Some(this) => this <= size,
            None => false,
        },
    }
}

/// Whether a size or a bound is 1 to 64.
pub fn is_amount(tables: &NameTables<'_>, amount: &Amount) -> bool
    ensures { result ≡ uses.is_amount tables.now amount.now }
{
    match tables.globals.amount(amount) {
        Some(number) => is_up_to(GREATEST_SIZE, number),
        None => true,
    }
}
