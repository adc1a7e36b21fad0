ghost use Rattle.std.specs.Prelude.{ℕ, List, Option};
ghost use Rattle.text_writer.specs.Writes.{WriterState, Writes};

/// What a text is written to, piece by piece.
pub trait Writer {
    /// What was written so far, where that is told.
    ghost text: { Self → Option (List ℕ) };

    /// Whether nothing was refused so far, how many refusals were counted, and where it writes to.
    ghost state: { Self → WriterState };

    /// Writes bytes behind what stands there. After a refusal it writes nothing more.
    fn put(&mut self, bytes: &[u8])
        ensures { Writes (state self.old) (text self.old) bytes.now (state self.new) (text self.new) };
}
