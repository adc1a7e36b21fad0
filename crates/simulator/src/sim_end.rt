use event_lines::LineFault;

/// How a simulation ended.
#[derive(Clone, Copy, Debug, PartialEq, Eq)]
pub enum SimEnd {
    /// The event file was read to its end, and all was written.
    Ended { events: u64 },
    /// The line of this number breaks a rule, the lowest of which is told.
    LineFault { line: u64, fault: LineFault },
    /// The line of this number has more bytes than a line may have.
    LineTooLong { line: u64 },
    /// A read was refused.
    ReadFault,
    /// The file has more bytes than it may have, and no whole line is left before that.
    TooLong,
    /// A write was refused.
    WriteFault,
}
