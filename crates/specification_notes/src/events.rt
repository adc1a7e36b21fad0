//! Events as they are written.

use rsml_names::Globals;
use rsml_syntax::{Index, Mention};
use source_survey::index_of;
use text_writer::{Draft, Writer, put_number};

/// Which events of a name.
#[derive(Clone, Copy, PartialEq, Eq, Hash)]
enum Which {
    All,
    This,
    Numbered(i64),
}

/// An event as it is written: the place of its name among the global names, and its index.
#[derive(Clone, Copy, PartialEq, Eq, Hash)]
pub struct Event {
    name: usize,
    which: Which,
}

fn which_of(globals: &Globals<'_>, mention: &Mention) -> Which {
    match index_of(mention) {
        None => Which::All,
        Some(Index::This) => Which::This,
        Some(Index::Number(number)) => Which::Numbered(i64::from(*number)),
        Some(Index::Name(name)) => match globals.constant(name) {
            Some(number) => Which::Numbered(number),
            None => Which::All,
        },
    }
}

/// The event that is mentioned.
pub fn event_of(globals: &Globals<'_>, mention: &Mention) -> Option<Event> {
    Some(Event {
        name: globals.place(&mention.name)?,
        which: which_of(globals, mention),
    })
}

impl Event {
    /// The events of its name.
    pub fn at_any_index(self) -> Event {
        Event {
            name: self.name,
            which: Which::All,
        }
    }
}

/// Puts a mention as it is written, in backquotes.
pub fn put_mention(line: &mut Draft, mention: &Mention) {
    line.put(b"`");
    line.put(mention.name.bytes());
    if let Some(index) = index_of(mention) {
        line.put(b"[");
        match index {
            Index::Number(number) => put_number(line, u64::from(*number)),
            Index::Name(name) => line.put(name.bytes()),
            Index::This => line.put(b"this"),
        }
        line.put(b"]");
    }
    line.put(b"`");
}
