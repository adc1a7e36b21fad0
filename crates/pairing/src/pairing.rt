ghost use Rattle.std.specs.Prelude.{◌≡◌, ◌≢◌, ◌≤◌, List, ℕ};
ghost use Rattle.pairing.specs.Steps as steps;

use crate::pair_action::PairAction;
use crate::second::come_to;
use crate::starting::{Start, start_in};
use answering::{Status, answer};
use frame_notes::Side;
use rsml_io::{Files, Sink};
use std::alloc::Global;

/// Reads a first file and then a second, and writes what an action comes to on their texts. The second is not read where the text of the first
/// is too long, reads as no specification, or as one that breaks a rule or a limit.
pub fn pair<F: Files, K: Sink>(
    alloc: Global,
    action: PairAction,
    file: &str,
    other: &str,
    files: &mut F,
    sink: &mut K,
) -> Status
    ensures paired { steps.HasPaired action file.now other.now (λ name. record {
      told = F.contents files.old name;
      reach = F.reach files.old name;
      reach_after = F.reach files.new name;
      refusals = F.faults files.old name;
      refusals_after = F.faults files.new name;
    }) (record {
      written = K.written sink.old;
      written_after = K.written sink.new;
      refusals = K.faults sink.old;
      refusals_after = K.faults sink.new;
    }) result }
    ensures contents { (name : List ℕ) → F.contents files.new name ≡ F.contents files.old name }
    ensures count { (name : List ℕ) → F.faults files.old name ≤ F.faults files.new name }
    ensures others { (name : List ℕ) → name ≢ file.now → name ≢ other.now → F.reach files.new name ≡ F.reach files.old name }
    ensures sink_count { K.faults sink.old ≤ K.faults sink.new }
{
    match start_in(alloc, action, file, files) {
        Start::Kept { checked, text } => {
            let first = Side {
                file: file.as_bytes(),
                text: text.as_slice(),
                checked: &checked,
            };
            answer(sink, come_to(alloc, action, first, other, files))
        }
        Start::Stopped(came) => answer(sink, came),
    }
}
