use rsml_syntax::Text;

/// A function in the instance of an index.
#[derive(Clone, Copy, PartialEq, Eq, Hash)]
pub struct Function<'a> {
    pub name: &'a Text,
    pub at: u64,
}
