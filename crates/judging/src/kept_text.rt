use rsml_syntax::Checked;

/// What the bytes of a specification are before it is analysed. `docs/formats.md` has the lines.
#[derive(Drop)]
pub enum Kept {
    /// They are more than 1,048,576.
    TooLong,
    /// They read as no specification; the line tells their first fault.
    Unread { line: Vec<u8> },
    /// The specification breaks a rule or a limit; the line tells the lowest.
    Broken { line: Vec<u8> },
    /// The specification keeps the rules and the limits.
    Checked(Checked),
}
