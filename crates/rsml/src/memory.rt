ghost use Rattle.std.specs.Prelude.{◌≡◌, IfOk, List, ℕ};
ghost use Rattle.source_notes.specs.Comments.{AreComments};

use crate::command::{Action, Command, command_in};
use answering::GREATEST_FILE;
use explaining::memory_notes;
use following::EventAction;
use pairing::PairAction;
use rsml_io::{Files, read_all};
use rsml_syntax::NoMemory;
use source_notes::Notes;
use std::alloc::Global;

/// The specification that a command explains.
fn explained_file(command: Command<'_>) -> Option<&str> {
    match command {
        Command::Act {
            action: Action::Explain,
            file,
        } => Some(file),
        Command::Act {
            action: Action::ExplainGaps(_),
            file,
        } => Some(file),
        Command::Follow {
            action: EventAction::ExplainCover,
            file,
            ..
        } => Some(file),
        Command::Pair {
            action: PairAction::ExplainProve,
            file,
            ..
        } => Some(file),
        Command::Pair {
            action: PairAction::ExplainSame,
            file,
            ..
        } => Some(file),
        _ => None,
    }
}

/// What a person is told where a command ended with out of memory: of `explain`, `explain cover`, `explain gaps`, `explain prove` and `explain
/// same`, comment lines on the first group of the first specification for which memory is refused; of another command, or where that is not
/// known, nothing. It takes the time of `check` once more.
pub fn memory_lines<F: Files>(
    alloc: Global,
    words: &[String],
    files: &mut F,
) -> Result<Vec<u8>, NoMemory>
    ensures comments { IfOk result (λ v. AreComments v.items) }
    ensures contents { (file : List ℕ) → F.contents files.new file ≡ F.contents files.old file }
{
    if let Some(command) = command_in(words)
        && let Some(file) = explained_file(command)
        && let Ok(text) = read_all(alloc, files, file, GREATEST_FILE)
    {
        return memory_notes(alloc, file.as_bytes(), text.as_slice());
    }
    Notes::new(alloc, b"", b"").bytes()
}
