/// What a level is for: a part, for which it counts with a weight where it is true, or nothing. A
/// layout is a list of slots, one a level.
#[derive(Clone, Copy, PartialEq, Eq, Debug)]
pub enum Slot {
    Part { part: u32, weight: u64 },
    Free,
}
