ghost use Rattle.std.specs.Prelude.{IfOk};
ghost use Rattle.pairing.specs.Steps.{ComesOf, IsLong};

use answering::{Outcome, Status};
use rsml_io::ReadError;
use rsml_syntax::NoMemory;
use std::alloc::Global;

/// That a file is too long, as these bytes tell.
pub fn long(alloc: Global, bytes: &[u8]) -> Result<Outcome, NoMemory>
    ensures { IfOk result (IsLong bytes.now) }
{
    let text = Vec::from_slice(alloc, bytes)?;
    Ok(Outcome::Text {
        status: Status::TooLong,
        text,
    })
}

/// What a command comes to on a file that was not read: where it is too long, these bytes.
pub fn unread(alloc: Global, bytes: &[u8], error: ReadError) -> Result<Outcome, NoMemory>
    ensures { ComesOf bytes.now error result }
{
    match error {
        ReadError::ReadFault => Ok(Outcome::Unread),
        ReadError::TooLong => long(alloc, bytes),
        ReadError::NoMemory => Err(NoMemory),
    }
}
