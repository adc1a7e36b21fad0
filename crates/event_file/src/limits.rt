/// How many bytes a line, its LF not counted, and a file may have.
#[derive(Clone, Copy, Debug, PartialEq, Eq)]
pub struct Limits {
    pub line: usize,
    pub file: u64,
}
