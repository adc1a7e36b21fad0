ghost use Rattle.std.specs.Prelude.{◌≡◌, ◌≢◌, ℕ, ◌≤◌, List, Option, length, IfOk, IfSome, OnErr};
ghost use Rattle.rsml_io.specs.Counts.{Rose};
ghost use Rattle.rsml_io.specs.Reading.{GivesPiece, reach_after};

use crate::failed::Failed;

/// Named files. A value may tell what they hold and how far they were read.
pub trait Files {
    /// What each file holds, where that is told.
    ghost contents: { Self → List ℕ → Option (List ℕ) };

    /// The furthest place at which a read of each file ended, where that is told.
    ghost reach: { Self → List ℕ → Option ℕ };

    /// How many reads of each file were refused.
    ghost faults: { Self → List ℕ → ℕ };

    /// Reads bytes of a file from a place on into the front of `into`, and says how many.
    fn read(&mut self, name: &str, at: u64, into: &mut [u8]) -> Result<usize, Failed>
        ensures bound { IfOk result (λ n. n ≤ length into.old) }
        ensures piece { IfOk result (λ n.
            IfSome (contents self.old name.now) (λ file. GivesPiece file at into.new n)) }
        ensures reached { IfOk result (λ n.
            reach self.new name.now ≡ reach_after (reach self.old name.now) at n) }

        ensures cause { OnErr result (Rose (faults self.old name.now) (faults self.new name.now)) }
        ensures unread { OnErr result (reach self.new name.now ≡ reach self.old name.now) }

        ensures contents { (file : List ℕ) → contents self.new file ≡ contents self.old file }
        ensures count { (file : List ℕ) → faults self.old file ≤ faults self.new file }
        ensures others { (file : List ℕ) → file ≢ name.now →
            reach self.new file ≡ reach self.old file };
}
