/// A key at a place, and whether its comparison is to be true.
#[derive(Clone, Copy, Debug)]
pub(crate) struct Literal {
    pub place: usize,
    pub truth: bool,
}
