ghost use Rattle.std.specs.Prelude.{◌≡◌, ◌≢◌, ℕ, ◌<◌, ◌≤◌, true, false, [], List, length, take};
ghost use Rattle.rsml_io.specs.Counts.{Rose};
ghost use Rattle.rsml_io.specs.Writing.{appended};

use crate::buffer::Buffer;
use rsml_io::{Failed, Sink};

/// Writes bytes until all are taken or a write is refused. How many were taken.
fn write_front<K: Sink>(sink: &mut K, bytes: &[u8]) -> usize
    ensures bound { result ≤ length bytes.now }
    ensures written { K.written sink.new ≡ appended (K.written sink.old) (take result bytes.now) }
    ensures cause { result < length bytes.now → Rose (K.faults sink.old) (K.faults sink.new) }
    ensures count { K.faults sink.old ≤ K.faults sink.new }
{
    let mut at = 0;
    while at < bytes.len() {
        match sink.write(&bytes[at..]) {
            Ok(n) => at += n,
            Err(Failed) => return at,
        }
    }
    at
}

/// Writes what waits, where nothing was refused before. Whether nothing was refused yet.
#[tactic(auto, using(crate::proofs::Waiting::moved))]
pub(crate) fn write_waiting<K: Sink>(sink: &mut K, buffer: &mut Buffer, whole: bool) -> bool
    ensures text { appended (K.written sink.new) buffer.new.bytes
        ≡ appended (K.written sink.old) buffer.old.bytes }
    ensures before { result ≡ true → whole ≡ true }
    ensures none_waits { result ≡ true → buffer.new.bytes ≡ [] }
    ensures some_wait { whole ≡ true → result ≡ false → buffer.new.bytes ≢ [] }
    ensures waiting { whole ≡ false → buffer.new.bytes ≡ buffer.old.bytes }
    ensures written { whole ≡ false → K.written sink.new ≡ K.written sink.old }
    ensures more { (bytes : List ℕ) × (K.written sink.new ≡ appended (K.written sink.old) bytes) }
    ensures cause { whole ≡ true → result ≡ false → Rose (K.faults sink.old) (K.faults sink.new) }
    ensures count { K.faults sink.old ≤ K.faults sink.new }
{
    if !whole {
        return false;
    }
    let n = write_front(sink, buffer.bytes());
    let all = n == buffer.bytes().len();
    buffer.remove_front(n);
    all
}
