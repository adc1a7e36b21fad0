/// A field of a line: the name of its input, and the number of the type of that.
#[derive(Clone, Copy)]
pub struct Field<'a> {
    pub name: &'a [u8],
    pub kind: usize,
}
