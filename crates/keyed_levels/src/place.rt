use rsml_base::List;

/// What takes the next levels: a component or a cell, cells that meet in sums, or a comparison. The components are the first
/// parts, and the cells come after them.
#[derive(Debug)]
pub enum KeyPlace {
    Part(u32),
    Cluster(List<u32>),
    Comparison(u32),
}

impl Drop for KeyPlace {
    fn drop(self) {
        match self {
            Self::Part(_) => {}
            Self::Cluster(_) => {}
            Self::Comparison(_) => {}
        }
    }
}
