/// A free level, and the number of the comparison, among the phrases, that it stands for.
#[derive(Clone, Copy, Debug, PartialEq, Eq)]
pub struct Keyed {
    pub level: u32,
    pub phrase: u32,
}
