/// A transition, a case of a send, or a case of a function, by places among the instances.
#[derive(Clone, Copy, Debug, PartialEq, Eq)]
pub enum Member {
    Transition(u32),
    SendCase(u32),
    FunctionCase { function: u32, place: u32 },
}

/// Of what a group is: a state or a send instance, each on an event, or a function instance.
#[derive(Clone, Copy, Debug, PartialEq, Eq)]
pub enum GroupKind {
    State { state: u32, event: u32 },
    Send { send: u32, event: u32 },
    Function(u32),
}
