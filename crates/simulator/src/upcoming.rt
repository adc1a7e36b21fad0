use event_lines::LineFault;

/// What comes next in an event file. Each answer but `Event` is final.
#[derive(Clone, Copy, Debug, PartialEq, Eq)]
pub enum Upcoming {
    /// An event, by the receive of this number: it was latched, and its event is present.
    Event { interface: u32 },
    /// The event file was read to its end, and had so many events.
    Ended { events: u64 },
    /// The line of this number breaks a rule, the lowest of which is told.
    LineFault { line: u64, fault: LineFault },
    /// The line of this number has more bytes than a line may have.
    LineTooLong { line: u64 },
    /// A read was refused.
    ReadFault,
    /// The file has more bytes than it may have, and no whole line is left before that.
    TooLong,
}
