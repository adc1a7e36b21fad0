ghost use Rattle.std.specs.Prelude.{◌≡◌, ◌+◌, ◌≤◌, drop, length, take};

use crate::field::Field;

/// What is kept of a receive: the place of its first field, how many fields it has, and the place of
/// the event that it raises.
#[derive(Clone, Copy)]
pub struct Receive {
    pub first: usize,
    pub count: u32,
    pub raised: u32,
}

impl Receive {
    /// The fields of the receive, among those of all.
    pub fn part(self, fields: &[Field]) -> &[Field]
        requires { self.first + self.count ≤ length fields.now }
        ensures { result.now ≡ take self.count (drop self.first fields.now) }
    {
        let end = self.first + self.count as usize;
        &fields[self.first..end]
    }
}
