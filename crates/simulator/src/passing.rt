ghost use Rattle.std.specs.Prelude.{◌≡◌, ◌≢◌, ◌<◌, ◌≤◌, ◌↔◌, ℕ, List, Some, None, false, true, IfSome};
ghost use Rattle.rsml_io.specs.Counts.{Rose};
ghost use Rattle.rsml_meaning.specs.EventLines.{is_skipped};
ghost use Rattle.event_file.specs.Reading.{Fits, taken};
ghost use Rattle.event_file.specs.declared.next.Next.TheVariants as next;
ghost use Rattle.simulator.specs.helpers.Skipping.{AnswersBehind};

use event_file::{LineReader, Next, skipped};
use rsml_io::Files;

/// How many bytes a line may have at most. Where more are held, nothing is read to tell the next line.
const LONGEST: usize = 4096;

/// Whether a line that is not skipped is held as far as it is told, so that no more is read for the next event.
pub fn holds_event(reader: &LineReader) -> bool {
    let held = reader.held();
    (held.len() > LONGEST || reader.holds_line()) && !begins_skipped(held)
}

/// Whether bytes begin with a line that is skipped, or might be one: their first byte that is no space or tab ends a line, or is `#`.
fn begins_skipped(bytes: &[u8]) -> bool {
    match bytes.iter().find(|byte| **byte != b' ' && **byte != b'\t') {
        Some(byte) => matches!(*byte, b'#' | b'\n' | b'\r'),
        None => true,
    }
}

/// The next answer of a reader of lines behind lines that are skipped.
pub fn next_unskipped<F: Files>(reader: &mut LineReader, files: &mut F, name: &str) -> Next
    requires { IfSome (F.contents files.old name.now) (λ content. Fits content reader.old) }

    // Where it is told what the file holds.
    ensures told { IfSome (F.contents files.old name.now) (λ content.
        AnswersBehind content reader.old result reader.new) }

    // Whether that is told or not.
    ensures unskipped { result ≡ next.Line → is_skipped reader.new.line ≡ false }
    ensures settles { result ≢ next.Line → reader.new.settled ≡ Some result }
    ensures fault { result ≡ next.ReadFault → reader.old.settled ≢ Some next.ReadFault →
        Rose (F.faults files.old name.now) (F.faults files.new name.now) }
    ensures unrefused { result ≡ next.Line → reader.new.settled ≢ Some next.ReadFault }
    ensures forward { result ≡ next.Line → reader.old.at < reader.new.at }
    ensures on { reader.old.at ≤ reader.new.at }
    ensures within { reader.new.at ≤ reader.new.limits.file }
    ensures limits { reader.new.limits ≡ reader.old.limits }

    // What it reads.
    ensures reached { F.reach files.old name.now ≡ Some (taken reader.old) →
        F.reach files.new name.now ≡ Some (taken reader.new) }
    ensures contents { (file : List ℕ) → F.contents files.new file ≡ F.contents files.old file }
    ensures count { (file : List ℕ) → F.faults files.old file ≤ F.faults files.new file }
    ensures others { (file : List ℕ) → file ≢ name.now →
        F.reach files.new file ≡ F.reach files.old file }
{
    'lines: loop {
        match reader.next(files, name) {
            Next::Line => {
                if !skipped(reader.line()) {
                    return Next::Line;
                }
            }
            answer => return answer,
        }
    }
}
