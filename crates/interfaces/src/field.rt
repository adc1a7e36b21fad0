/// Where the cells of an input are: the place of its cell, and that of its previous cell where it
/// has one.
#[derive(Clone, Copy)]
pub struct Field {
    pub cell: u32,
    pub previous: Option<u32>,
}
