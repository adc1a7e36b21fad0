/// What a line tells: the number of the receive instance. The numbers of its fields stand in the
/// values.
#[derive(Clone, Copy, Debug, PartialEq, Eq)]
pub struct Received {
    pub interface: u32,
}
