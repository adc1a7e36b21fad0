/// A level that adds its weight where it is true, or takes it off.
#[derive(Clone, Copy, PartialEq, Eq, Debug)]
pub struct Weighted {
    pub minus: bool,
    pub level: u32,
    pub weight: u64,
}
