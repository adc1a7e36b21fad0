ghost use Rattle.std.specs.Prelude.{◌≡◌, ◌≢◌, ℕ, ◌≤◌, [], List, Option, length, take, IfOk, OnErr};
ghost use Rattle.rsml_io.specs.Counts.{Rose};
ghost use Rattle.rsml_io.specs.Writing.{appended};

use crate::failed::Failed;

/// What takes bytes, one after another.
pub trait Sink {
    /// The bytes written so far, where they are told.
    ghost written: { Self → Option (List ℕ) };

    /// How many writes were refused.
    ghost faults: { Self → ℕ };

    /// Takes bytes from the front of `bytes`, and says how many.
    fn write(&mut self, bytes: &[u8]) -> Result<usize, Failed>
        ensures bound { IfOk result (λ n. n ≤ length bytes.now) }
        ensures some { IfOk result (λ n. n ≡ 0 → bytes.now ≡ []) }
        ensures written { IfOk result (λ n.
            written self.new ≡ appended (written self.old) (take n bytes.now)) }

        ensures cause { OnErr result (Rose (faults self.old) (faults self.new)) }
        ensures unempty { OnErr result (bytes.now ≢ []) }
        ensures unwritten { OnErr result (written self.new ≡ written self.old) }

        ensures count { faults self.old ≤ faults self.new };
}
