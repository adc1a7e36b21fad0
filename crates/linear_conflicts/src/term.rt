/// A variable times a whole number.
#[derive(Clone, Copy, Debug)]
pub struct Term {
    pub variable: u32,
    pub factor: i64,
}
