use event_graph::Clash;

/// What is found of an external event: its length, if it has one, and its first clash, if it has
/// both.
#[derive(Clone, Copy, Debug)]
pub struct External {
    pub event: u32,
    pub length: Option<u32>,
    pub clash: Option<Clash>,
}
