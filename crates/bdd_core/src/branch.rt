use crate::reference::Ref;

/// A node of an arena: its level, and the functions that it is where that level is false and true.
#[derive(Clone, Copy, PartialEq, Eq, Hash, Debug)]
pub struct Branch {
    pub level: u32,
    pub low: Ref,
    pub high: Ref,
}
