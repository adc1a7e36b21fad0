use ground_groups::Member;
use rsml_syntax::World;

/// A member of a machine, a world in which it differs from the one at its place in another, and whether it is enabled there in the first.
#[derive(Debug, Drop)]
pub struct Found {
    pub member: Member,
    pub world: World,
    pub first: bool,
}
