ghost use Rattle.std.specs.Prelude.{◌≡◌, ◌+◌, ◌-◌, ◌≤◌};

use crate::field::Field;

/// How the lines of a receive are written: the number of its first instance, how many instances
/// there are, whether they are an array, and the fields.
#[derive(Drop)]
pub struct Form<'a> {
    pub first: u32,
    pub many: u32,
    pub is_array: bool,
    pub fields: Vec<Field<'a>>,
    ghost room: { first + many ≤ 4294967295 },
}

impl<'a> Form<'a> {
    /// The number of the instance of an index.
    pub fn number(&self, index: u32) -> u32
        requires { index ≤ self.now.many }
        ensures { result ≡ self.now.first + (index - 1) }
    {
        self.first + index.saturating_sub(1)
    }
}
