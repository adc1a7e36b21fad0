ghost use Rattle.std.specs.Prelude.{◌≡◌, ◌≢◌, ℕ, ◌+◌, ◌<◌, ◌≤◌, List, length, IfOk, IfSome, OnOk, OnErr};
ghost use Rattle.rsml_io.specs.Counts.{Rose};
ghost use Rattle.rsml_io.specs.Reading.{raised, HasReached};
ghost use Rattle.rsml_io.specs.Writing.{appended, AppendsProperPrefix};
ghost use Rattle.rsml_io.specs.declared.read_error.ReadError.TheVariants as error;

use crate::failed::Failed;
use crate::files::Files;
use crate::read_error::ReadError;
use crate::sink::Sink;
use std::alloc::Global;

/// How many bytes of a file are read at once.
const PIECE: usize = 4096;

/// Reads a file whole, if it has at most `limit` bytes. To see that it has more, it may read up to
/// a piece past the limit, and no further, however the call ends.
pub fn read_all<F: Files>(
    alloc: Global,
    files: &mut F,
    name: &str,
    limit: u64,
) -> Result<Vec<u8>, ReadError>
    ensures whole { IfOk result (λ bytes.
        IfSome (F.contents files.old name.now) (λ file. bytes.items ≡ file)) }
    ensures within { IfOk result (λ bytes. length bytes.items ≤ limit) }
    ensures reached { IfOk result (λ bytes.
        F.reach files.new name.now ≡ raised (F.reach files.old name.now) (length bytes.items)) }
    ensures bound { HasReached (F.reach files.old name.now) (limit + 4096) (F.reach files.new name.now) }

    ensures fault { result ≡ Err error.ReadFault →
        Rose (F.faults files.old name.now) (F.faults files.new name.now) }
    ensures too_long { result ≡ Err error.TooLong →
        IfSome (F.contents files.old name.now) (λ file. limit < length file) }

    ensures contents { (file : List ℕ) → F.contents files.new file ≡ F.contents files.old file }
    ensures count { (file : List ℕ) → F.faults files.old file ≤ F.faults files.new file }
    ensures others { (file : List ℕ) → file ≢ name.now →
        F.reach files.new file ≡ F.reach files.old file }
{
    let mut bytes = Vec::new(alloc);
    let mut piece = [0u8; PIECE];
    'pieces: loop {
        let at = bytes.len() as u64;
        let n = match files.read(name, at, &mut piece) {
            Ok(n) => n,
            Err(Failed) => return Err(ReadError::ReadFault),
        };
        if n == 0 {
            return Ok(bytes);
        }
        if n as u64 > limit || at > limit - n as u64 {
            return Err(ReadError::TooLong);
        }
        bytes.extend_from_slice(&piece[..n])?;
    }
}

/// Writes all of the bytes, in as many writes as it takes. What was written before a refused write
/// stands.
pub fn write_all<K: Sink>(sink: &mut K, bytes: &[u8]) -> Result<(), Failed>
    ensures whole { OnOk result (K.written sink.new ≡ appended (K.written sink.old) bytes.now) }

    ensures cause { OnErr result (Rose (K.faults sink.old) (K.faults sink.new)) }
    ensures part { OnErr result
        (AppendsProperPrefix (K.written sink.old) (K.written sink.new) bytes.now) }

    ensures count { K.faults sink.old ≤ K.faults sink.new }
{
    let mut at = 0;
    while at < bytes.len() {
        let n = sink.write(&bytes[at..])?;
        at += n;
    }
    Ok(())
}
