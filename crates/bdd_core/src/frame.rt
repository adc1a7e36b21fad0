/// A question that waits for the answers of its children: three numbers name it, and `low` is the
/// answer of its low child, once that is known.
#[derive(Clone, Copy)]
pub struct Frame {
    pub(crate) f: u32,
    pub(crate) g: u32,
    pub(crate) h: u32,
    pub(crate) low: Option<u32>,
}
