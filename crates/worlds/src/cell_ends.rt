use rsml_syntax::Text;

/// The name of a cell's input, the least and the greatest number that the cell may hold, and the first that it holds.
#[derive(Clone, Copy)]
pub struct CellEnds<'a> {
    pub name: &'a Text,
    pub low: i64,
    pub high: i64,
    pub initial: i64,
}
