use bdd_core::Ref;

/// A step that waits for the answer of the levels after its own. `rest` is the sum of the weights
/// from its level on. `out` is the answer where its level does not count, once that is known.
#[derive(Clone, Copy)]
pub struct Step {
    pub(crate) rest: u64,
    pub(crate) room: u64,
    pub(crate) out: Option<Ref>,
}
