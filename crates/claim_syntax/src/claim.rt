ghost use Rattle.std.specs.Prelude.{◌≡◌};
ghost use Rattle.std.specs.Option.{option_copied};
ghost use Rattle.rsml_syntax.specs.grammar.Written.{simple_of};
ghost use Rattle.claim_syntax.specs.Joined.{macro_of};
ghost use Rattle.claim_syntax.specs.OfStates as spec;

use rsml_syntax::{Decl, List, Phrase, Row, Simple, Text};

/// A claim: a name, and the rows of an AND/OR table over a specification.
#[derive(Debug)]
pub struct Claim {
    pub name: Text,
    pub rows: List<Row>,
}

impl Drop for Claim {
    fn drop(self) {
        let Self { name: _, rows: _ } = self;
    }
}

impl Claim {
    /// Whether each phrase asks whether a state is active, plainly or under a quantifier.
    pub fn is_of_states(&self) -> bool
        ensures { result ≡ spec.is_of_states self.now }
    {
        self.rows.iter().all(|row| asks_a_state(&row.phrase))
    }

    /// The claim as a declaration: a macro without a size.
    pub fn into_declaration(self) -> Decl
        ensures { result ≡ macro_of self }
    {
        let Self { name, rows } = self;
        Decl::Macro {
            name,
            size: None,
            rows,
        }
    }
}

fn asks_a_state(phrase: &Phrase) -> bool
    ensures { result ≡ spec.asks_a_state (simple_of phrase.now) }
{
    match phrase {
        Phrase::Plain(body) | Phrase::Any { body, .. } | Phrase::Every { body, .. } => {
            matches!(body, Simple::In(_))
        }
    }
}

/// The first claim that asks for more than states: it breaks rule C1. None exactly where there is none.
pub fn first_other(claims: &[Claim]) -> Option<&Claim>
    ensures { option_copied result ≡ spec.first_other claims.now }
{
    claims.iter().find(|claim| !claim.is_of_states())
}
