ghost use Rattle.std.specs.Prelude.{◌≡◌, ◌≢◌, true, false, []};
ghost use Rattle.std.proofs.Props.{props};
ghost use Rattle.text_writer.specs.Buffering.{Continues};

use crate::Writer;
use crate::buffer::Buffer;
use crate::flushing::write_waiting;
use rsml_io::Sink;
use std::snapshot::Snapshot;

/// A sink behind a buffer. It holds both by reference, so that the sink is its owner's again when it is gone.
pub struct BufferedSink<'s, K: Sink> {
    sink: &'s mut K,
    buffer: &'s mut Buffer,
    whole: bool,
    began: Snapshot<K>,
    ghost some_wait: { whole ≡ false → buffer.now.bytes ≢ [] },
    ghost continues: { Continues (K.written began.value) (K.written sink.now) } by { Prim.hlevel props },
}

impl<'s, K: Sink> BufferedSink<'s, K> {
    ghost use Rattle.std.specs.Prelude.{◌≡◌, true, false, []};
    ghost use Rattle.text_writer.specs.Writes.{Writes};
    ghost use Rattle.text_writer.specs.Buffering.{begins, Flushes, Finishes};
    ghost use Rattle.text_writer.specs.Parts.{waiting, written_in, text_of, state_of};

    /// A sink behind an empty buffer. Its text is what stands in the sink.
    pub fn new(sink: &'s mut K, buffer: &'s mut Buffer) -> BufferedSink<'s, K>
        requires { buffer.old.bytes ≡ [] }
        ensures text { text_of K.written result ≡ K.written sink.old }
        ensures state { state_of K.faults K.written result
            ≡ begins sink.entry.ghost_name (K.written sink.old) (K.faults sink.old) }
    {
        let began = Snapshot::of(sink);
        BufferedSink {
            sink,
            buffer,
            whole: true,
            began,
        }
    }

    /// Whether nothing was refused.
    pub fn is_whole(&self) -> bool
        ensures { result ≡ (state_of K.faults K.written self.now).whole }
    {
        self.whole
    }

    /// Writes what waits. After a refusal it writes nothing.
    pub fn flush(&mut self)
        ensures flushes { Flushes (state_of K.faults K.written self.old) (text_of K.written self.old)
            (state_of K.faults K.written self.new) (text_of K.written self.new) }
        ensures none_waits { (state_of K.faults K.written self.new).whole ≡ true → waiting self.new ≡ [] }
        ensures unwritten { (state_of K.faults K.written self.old).whole ≡ false →
            written_in K.written self.new ≡ written_in K.written self.old }
    {
        self.whole = write_waiting(self.sink, self.buffer, self.whole);
    }

    /// Writes bytes for which there is no room at once, as much at a time as there is room for.
    #[cold]
    #[inline(never)]
    fn put_parts(&mut self, bytes: &[u8])
        requires { self.old.whole ≡ true }
        ensures { Writes (state_of K.faults K.written self.old) (text_of K.written self.old) bytes.now
            (state_of K.faults K.written self.new) (text_of K.written self.new) }
    {
        let mut at = self.buffer.fill(bytes);
        while at < bytes.len() {
            self.flush();
            if !self.is_whole() {
                return;
            }
            at += self.buffer.fill(&bytes[at..]);
        }
    }

    /// Writes what waits, and gives the sink back. Whether nothing was refused.
    pub fn finish(self) -> bool
        ensures { Finishes (state_of K.faults K.written self.entry) (text_of K.written self.entry)
            result self.exit.0.ghost_name (K.faults self.exit.0.now) (K.written self.exit.0.now) }
    {
        let BufferedSink {
            sink,
            buffer,
            whole,
            began: _began,
        } = self;
        write_waiting(sink, buffer, whole)
    }
}

impl<'s, K: Sink> Writer for BufferedSink<'s, K> {
    ghost use Rattle.text_writer.specs.Parts.{text_of, state_of};

    ghost text = { text_of K.written };

    ghost state = { state_of K.faults K.written };

    fn put(&mut self, bytes: &[u8]) {
        if self.whole && !self.buffer.push_all(bytes) {
            self.put_parts(bytes);
        }
    }
}
