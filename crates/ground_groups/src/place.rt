/// Where a group is stored: among those of states, of sends, or of functions.
#[derive(Clone, Copy, Drop)]
pub enum Place {
    State(usize),
    Send(usize),
    Function(usize),
}
