ghost use Rattle.answering.specs.Outcomes.{ComesOf};

use crate::outcome::Outcome;
use rsml_io::ReadError;
use rsml_syntax::NoMemory;

/// How many bytes of a specification's file are read.
pub const GREATEST_FILE: u64 = 1_048_576;

/// What a command comes to whose file was not read.
pub fn unread(error: ReadError) -> Result<Outcome, NoMemory>
    ensures { ComesOf error result }
{
    match error {
        ReadError::ReadFault => Ok(Outcome::Unread),
        ReadError::TooLong => Ok(Outcome::Long),
        ReadError::NoMemory => Err(NoMemory),
    }
}
