ghost use Rattle.std.specs.Prelude.{◌≡◌};

use rsml_syntax::NoMemory;
use thiserror::Error;

/// Why tokens are no specification. They are counted from 1; a place one past the last token is the end.
#[derive(Clone, Copy, Debug, PartialEq, Eq, Error)]
pub enum ParseError {
    /// No specification goes on with this token, or none ends here.
    #[error("syntax fault at token {token}")]
    Syntax { token: u32 },
    /// The token opens a state inside 16 others.
    #[error("too many nested states at token {token}")]
    TooDeep { token: u32 },
    #[error("out of memory")]
    NoMemory,
}

impl From<NoMemory> for ParseError {
    ghost use Rattle.rsml_parser.specs.declared.error.ParseError.TheVariants.{NoMemory};

    ghost from_gives = { λ _ error. error ≡ NoMemory };

    fn from(_error: NoMemory) -> ParseError {
        ParseError::NoMemory
    }
}
