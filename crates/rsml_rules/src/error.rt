ghost use Rattle.std.specs.Prelude.{◌≡◌};

use rsml_syntax::{NoMemory, Text};
use thiserror::Error;

/// Why a specification is refused, or that memory was wanting.
#[derive(Debug, PartialEq, Eq, Error, Drop)]
pub enum RuleError {
    /// The lowest rule that is broken, and the first name at which it is.
    #[error("rule S{number} is broken")]
    Rule { number: u8, name: Text },
    /// No rule is broken; this is the lowest limit that is, with its count, which stops at the
    /// greatest `u64`.
    #[error("limit L{number} is broken: {count}")]
    Limit { number: u8, count: u64 },
    #[error("memory was refused")]
    NoMemory,
}

impl From<NoMemory> for RuleError {
    ghost use Rattle.rsml_rules.specs.declared.error.RuleError.TheVariants as errors;

    ghost from_gives = { λ _ e. e ≡ errors.NoMemory };

    fn from(_: NoMemory) -> RuleError {
        RuleError::NoMemory
    }
}
