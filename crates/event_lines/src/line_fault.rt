/// The lowest rule that a line breaks, of E1 to E7 in this order.
#[derive(Clone, Copy, Debug, PartialEq, Eq)]
pub enum LineFault {
    /// The line is not UTF-8.
    NotUtf8,
    /// Its first word, up to a `[`, is the name of no receive.
    UnknownInterface,
    /// The rest of the first word is no index of the receive.
    BadIndex,
    /// The word in the place of a field does not begin with its name and `=`.
    WrongField,
    /// There are more words than fields.
    ExtraWord,
    /// A value is no number for a range, or none of the names of an enumeration.
    NotAValue,
    /// A number is not in the range of its input.
    OutOfRange,
}
