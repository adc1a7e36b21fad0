/// What hears of the events of a file while it is counted.
pub trait Listener {
    /// Hears the line of an event, without its line end. The rounds of the events before it are done.
    fn hear(&mut self, line: &[u8]);
}

/// A listener that keeps nothing.
#[derive(Drop)]
pub struct Deaf;

impl Listener for Deaf {
    fn hear(&mut self, _line: &[u8]) {}
}
