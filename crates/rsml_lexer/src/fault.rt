ghost use Rattle.std.specs.Prelude.{◌≡◌};

use rsml_syntax::NoMemory;
use std::alloc::AllocFailed;
use thiserror::Error;

/// Why a text has no token list, with the offset in bytes at which it goes wrong first, or that memory ran out.
#[derive(Clone, Copy, Debug, PartialEq, Eq, Error)]
pub enum LexError {
    /// What stands before the offset is the longest front of the text that is UTF-8.
    #[error("not UTF-8 at byte {at}")]
    NotUtf8 { at: u32 },
    /// A character that begins no token, white space or comment.
    #[error("no token begins at byte {at}")]
    BadCharacter { at: u32 },
    /// The first digit of a number above 1,000,000,000.
    #[error("too big a number at byte {at}")]
    NumberTooBig { at: u32 },
    #[error("out of memory")]
    NoMemory,
}

impl From<NoMemory> for LexError {
    ghost use Rattle.rsml_lexer.specs.declared.fault.LexError.TheVariants.{NoMemory};

    ghost from_gives = { λ _ e. e ≡ NoMemory };

    fn from(_error: NoMemory) -> LexError {
        LexError::NoMemory
    }
}

impl<T: Drop> From<AllocFailed<T>> for LexError {
    ghost use Rattle.rsml_lexer.specs.declared.fault.LexError.TheVariants.{NoMemory};

    ghost from_gives = { λ _ e. e ≡ NoMemory };

    fn from(_error: AllocFailed<T>) -> LexError {
        LexError::NoMemory
    }
}
