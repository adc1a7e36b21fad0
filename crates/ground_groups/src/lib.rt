//! The groups of a specification over numbers: their members, and the states below that react too.
#![tactic(auto)]

mod below;
mod functions;
mod group;
mod groups;
mod heads;
mod key;
mod lines;
mod lots;
mod place;
mod places;
mod stored;

pub use group::{GroupKind, Member};
pub use groups::Groups;
