/// Levels that are forgotten together, and the places of the keys whose functions read them. Other
/// keys may be among these.
pub struct Cell {
    pub levels: Vec<u32>,
    pub keys: Vec<usize>,
}

impl Drop for Cell {
    fn drop(self) {
        let Self { levels: _, keys: _ } = self;
    }
}
