ghost use Rattle.std.specs.Prelude.{◌≡◌, map, option_map, string_bytes};
ghost use Rattle.rsml.specs.Asked.{asked};
ghost use Rattle.rsml.specs.Commands as spec;
ghost use Rattle.rsml.specs.Commands.{action_of, command_of, event_action_of, explained_action_of, explained_pair_action_of, pair_action_of};

use crate::counts::count_in;
use following::EventAction;
use pairing::PairAction;

/// What a command does with a specification.
#[derive(Clone, Copy, Debug, PartialEq, Eq)]
pub enum Action {
    /// Analyses it, and writes the report.
    Check,
    /// Does the same, and writes comment lines behind the report.
    Explain,
    /// Writes its layout.
    Format,
    /// Reads it by the first edition of the notation, renames its name `previous`, and writes the layout.
    Migrate,
    /// Writes for each group that is not sound at most so many columns, from 1 to 99, of the worlds in which it fails.
    Gaps(u32),
    /// Does the same, and writes comment lines behind it.
    ExplainGaps(u32),
}

/// A command, with the names of its files, or the number of units.
#[derive(Clone, Copy, Debug)]
pub enum Command<'a> {
    /// An action on a specification.
    Act {
        action: Action,
        file: &'a str,
    },
    /// An action on a specification and an event file.
    Follow {
        action: EventAction,
        file: &'a str,
        events: &'a str,
    },
    /// An action on two texts: a specification and claims, or two specifications.
    Pair {
        action: PairAction,
        file: &'a str,
        other: &'a str,
    },
    /// The summary of the generated specification and events of 1 to 64 units.
    Demo {
        units: u32,
    },
    /// Which program this is.
    Version,
}

/// The action of a word.
fn action_called(word: &str) -> Option<Action>
    ensures { result ≡ action_of word.now }
{
    if word == "check" {
        return Some(Action::Check);
    }
    if word == "explain" {
        return Some(Action::Explain);
    }
    if word == "format" {
        return Some(Action::Format);
    }
    if word == "migrate" {
        return Some(Action::Migrate);
    }
    None
}

/// The action of a word on an event file.
fn event_action_called(word: &str) -> Option<EventAction>
    ensures { result ≡ event_action_of word.now }
{
    if word == "simulate" {
        return Some(EventAction::Simulate);
    }
    if word == "cover" {
        return Some(EventAction::Cover);
    }
    None
}

/// The action of two words on an event file.
fn explained_action_called(first: &str, word: &str) -> Option<EventAction>
    ensures { result ≡ explained_action_of first.now word.now }
{
    if first == "explain" {
        if word == "cover" {
            return Some(EventAction::ExplainCover);
        }
    }
    None
}

/// The action of a word on two texts.
fn pair_action_called(word: &str) -> Option<PairAction>
    ensures { result ≡ pair_action_of word.now }
{
    if word == "prove" {
        return Some(PairAction::Prove);
    }
    if word == "same" {
        return Some(PairAction::Same);
    }
    None
}

/// The action of two words on two texts.
fn explained_pair_action_called(first: &str, word: &str) -> Option<PairAction>
    ensures { result ≡ explained_pair_action_of first.now word.now }
{
    if first == "explain" {
        if word == "prove" {
            return Some(PairAction::ExplainProve);
        }
        if word == "same" {
            return Some(PairAction::ExplainSame);
        }
    }
    None
}

/// The command of a word on two files.
fn command_on<'a>(word: &str, file: &'a str, other: &'a str) -> Option<Command<'a>>
    ensures { option_map asked result ≡ spec.command_on word.now file.now other.now }
{
    if let Some(action) = pair_action_called(word) {
        return Some(Command::Pair {
            action,
            file,
            other,
        });
    }
    let action = event_action_called(word)?;
    Some(Command::Follow {
        action,
        file,
        events: other,
    })
}

/// The command of two words on two files.
fn explained_command_on<'a>(
    first: &str,
    word: &str,
    file: &'a str,
    other: &'a str,
) -> Option<Command<'a>>
    ensures { option_map asked result ≡ spec.explained_command_on first.now word.now file.now other.now }
{
    if let Some(action) = explained_pair_action_called(first, word) {
        return Some(Command::Pair {
            action,
            file,
            other,
        });
    }
    let action = explained_action_called(first, word)?;
    Some(Command::Follow {
        action,
        file,
        events: other,
    })
}

/// Whether two words ask for columns with comment lines behind them.
fn explains_gaps(first: &str, word: &str) -> bool
    ensures { result ≡ spec.explains_gaps first.now word.now }
{
    first == "explain" && word == "gaps"
}

/// The command that the words are, if they are one.
pub fn command_in(words: &[String]) -> Option<Command<'_>>
    ensures { option_map asked result ≡ command_of (map (λ word. string_bytes word) words.now) }
{
    match words {
        [word] => {
            if word.as_str() == "version" {
                return Some(Command::Version);
            }
            None
        }
        [word, file] => {
            if word.as_str() == "demo" {
                let units = count_in(file.as_str().as_bytes(), 64)?;
                return Some(Command::Demo { units });
            }
            let action = action_called(word.as_str())?;
            let file = file.as_str();
            Some(Command::Act { action, file })
        }
        [word, file, other] => {
            if word.as_str() == "gaps" {
                let most = count_in(other.as_str().as_bytes(), 99)?;
                let action = Action::Gaps(most);
                let file = file.as_str();
                return Some(Command::Act { action, file });
            }
            command_on(word.as_str(), file.as_str(), other.as_str())
        }
        [first, word, file, other] => {
            if explains_gaps(first.as_str(), word.as_str()) {
                let columns = count_in(other.as_str().as_bytes(), 99)?;
                let action = Action::ExplainGaps(columns);
                let file = file.as_str();
                return Some(Command::Act { action, file });
            }
            explained_command_on(first.as_str(), word.as_str(), file.as_str(), other.as_str())
        }
        _ => None,
    }
}
