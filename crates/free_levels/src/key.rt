use bdd_core::Ref;

/// A free level, and the function that it stands for, where that has been made.
#[derive(Clone, Copy)]
pub struct Key {
    pub level: u32,
    pub exact: Option<Ref>,
}
