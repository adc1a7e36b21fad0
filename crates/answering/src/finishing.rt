ghost use Rattle.std.specs.Prelude.{◌≤◌, IfOk};
ghost use Rattle.answering.specs.Outcomes.{HasAnswered, answer_of};
ghost use Rattle.answering.specs.Writing.{HasWritten, IsWritten};

use crate::outcome::Outcome;
use crate::status::Status;
use rsml_io::{Sink, write_all};
use rsml_syntax::NoMemory;

/// Writes bytes as all that a command writes.
pub fn finish<K: Sink>(sink: &mut K, bytes: &[u8], status: Status) -> Status
    requires { IsWritten status }
    ensures written { HasWritten (record {
      written = K.written sink.old;
      written_after = K.written sink.new;
      refusals = K.faults sink.old;
      refusals_after = K.faults sink.new;
    }) bytes.now status result }
    ensures count { K.faults sink.old ≤ K.faults sink.new }
{
    match write_all(sink, bytes) {
        Ok(()) => status,
        Err(_) => Status::WriteFault,
    }
}

/// Writes what a command came to, as all that it writes.
pub fn answer<K: Sink>(sink: &mut K, came: Result<Outcome, NoMemory>) -> Status
    requires { IfOk came (λ outcome. IsWritten (answer_of outcome)) }
    ensures answered { HasAnswered (record {
      written = K.written sink.old;
      written_after = K.written sink.new;
      refusals = K.faults sink.old;
      refusals_after = K.faults sink.new;
    }) came result }
    ensures count { K.faults sink.old ≤ K.faults sink.new }
{
    match came {
        Ok(Outcome::Text { status, text }) => finish(sink, text.as_slice(), status),
        Ok(Outcome::Unread) => finish(sink, b"fault read\n", Status::ReadFault),
        Ok(Outcome::Long) => finish(sink, b"fault long\n", Status::TooLong),
        Err(NoMemory) => Status::NoMemory,
    }
}
