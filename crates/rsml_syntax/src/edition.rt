/// An edition of the notation. They differ in one word: `previous` is a name like any other in the first, and
/// reserved in the second.
#[derive(Clone, Copy, Debug, PartialEq, Eq)]
pub enum Edition {
    First,
    Second,
}
