/// The first clash of chains that begin with a start: in a round, which is the number of events of
/// the chains, two events that meet.
#[derive(Clone, Copy, PartialEq, Eq, Debug)]
pub struct Clash {
    pub start: u32,
    pub round: u32,
    pub one: u32,
    pub two: u32,
}
