use rsml_base::List;

/// What takes the next levels of a layout.
#[derive(Debug)]
pub enum Place {
    /// The levels of one part stand together. It meets no other in a sum.
    Part(u32),
    /// The levels of these parts, which meet in sums, stand by falling weight.
    Cluster(List<u32>),
    /// A level that is for no part.
    Free,
}

impl Drop for Place {
    fn drop(self) {
        match self {
            Self::Part(_) => {}
            Self::Cluster(_) => {}
            Self::Free => {}
        }
    }
}
