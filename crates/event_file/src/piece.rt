/// What some bytes have at the beginning of a line.
#[derive(Clone, Copy, Debug, PartialEq, Eq)]
pub enum Piece {
    /// A line, which ends at `end` without its CR. The next one begins at `after`.
    Line { end: usize, after: usize },
    /// A line with more bytes than it may have.
    LineTooLong,
    /// No line: the bytes end there.
    End,
}
