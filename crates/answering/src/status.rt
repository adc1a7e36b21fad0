ghost use Rattle.std.specs.Prelude.{◌≡◌};

/// How a command ended.
#[derive(Clone, Copy, Debug, PartialEq, Eq)]
pub enum Status {
    /// The command did its work.
    Done,
    /// The specification is not certified.
    Refused,
    /// The specification does not read, or breaks a rule or a limit.
    SpecFault,
    /// A line of the event file breaks a rule, or is too long.
    EventFault,
    /// The words are no command.
    Usage,
    /// A read was refused.
    ReadFault,
    /// A write was refused.
    WriteFault,
    /// Memory was refused. Nothing was written.
    NoMemory,
    /// The specification or the event file is too long.
    TooLong,
}

impl Status {
    ghost use Rattle.answering.specs.Statuses.{number};

    /// The number with which the program ends.
    pub fn number(self) -> u8
        ensures { result ≡ number self }
    {
        match self {
            Status::Done => 0,
            Status::Refused => 1,
            Status::SpecFault => 2,
            Status::EventFault => 3,
            Status::Usage => 4,
            Status::ReadFault => 5,
            Status::WriteFault => 6,
            Status::NoMemory => 7,
            Status::TooLong => 8,
        }
    }
}
