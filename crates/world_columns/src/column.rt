use rsml_base::List;

/// The numbers from the lowest to the highest.
#[derive(Debug, Clone, Copy)]
pub struct Span {
    pub low: i64,
    pub high: i64,
}

/// A column of worlds: for each component the place of its active child, or none where it may be any, and for each cell the numbers
/// that it may hold. Both stand in the order of instances.
#[derive(Debug)]
pub struct Column {
    pub children: List<Option<u8>>,
    pub spans: List<Span>,
}

impl Drop for Column {
    fn drop(self) {
        let Self {
            children: _,
            spans: _,
        } = self;
    }
}

/// The columns of a set of worlds, and whether a world of the set lies in none of them.
#[derive(Debug, Drop)]
pub struct Gaps {
    pub columns: List<Column>,
    pub more: bool,
}
