/// What a reader of lines answers.
#[derive(Clone, Copy, Debug, PartialEq, Eq)]
pub enum Next {
    /// The next line is there.
    Line,
    /// The file was read to its end.
    End,
    /// A read was refused.
    ReadFault,
    /// The next line has more bytes than a line may have.
    LineTooLong,
    /// The file has more bytes than it may have, and no whole line is left before that.
    TooLong,
}
