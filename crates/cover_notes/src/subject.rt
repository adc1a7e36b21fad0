use elaborate::Machine;
use rsml_syntax::Checked;

/// The text of a specification, and the name of its file.
#[derive(Clone, Copy)]
pub struct Source<'s> {
    pub file: &'s [u8],
    pub text: &'s [u8],
}

/// A specification, the text that it was read from, and its machine.
#[derive(Clone, Copy)]
pub struct Subject<'s, 'a> {
    pub source: Source<'s>,
    pub checked: &'a Checked,
    pub machine: &'s Machine<'a>,
}
