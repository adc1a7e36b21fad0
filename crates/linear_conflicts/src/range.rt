/// From which number to which a variable goes.
#[derive(Clone, Copy, Debug)]
pub struct Range {
    pub low: i64,
    pub high: i64,
}
