/// The places of the two constants.
pub(crate) const FALSE: u32 = 0;

pub(crate) const TRUE: u32 = 1;

/// A node: where its level is false it goes on with `low`, and where it is true with `high`. Both
/// are places of nodes.
#[derive(Clone, Copy, PartialEq, Eq, Hash)]
pub struct Node {
    pub(crate) level: u32,
    pub(crate) low: u32,
    pub(crate) high: u32,
}
