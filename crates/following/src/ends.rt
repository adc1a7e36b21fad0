ghost use Rattle.std.specs.Prelude.{◌≡◌};
ghost use Rattle.following.specs.Outputs as output;

use answering::Status;
use event_file::Limits;
use simulator::SimEnd;

/// How many bytes a line and an event file may have.
pub const LIMITS: Limits = Limits {
    line: 4096,
    file: 4_294_967_296,
};

/// How the command ends, by how following its event file ended.
pub fn status_of(end: SimEnd) -> Status
    ensures { result ≡ output.status_of end }
{
    match end {
        SimEnd::Ended { .. } => Status::Done,
        SimEnd::LineFault { .. } => Status::EventFault,
        SimEnd::LineTooLong { .. } => Status::EventFault,
        SimEnd::ReadFault => Status::ReadFault,
        SimEnd::TooLong => Status::TooLong,
        SimEnd::WriteFault => Status::WriteFault,
    }
}
