//! The levels of decision diagrams over the worlds of a specification: which level spells which component or cell.
#![tactic(auto)]

mod building;
mod growing;
mod laws;
mod layout;
mod numbers;
mod place;
mod spans;
mod tables;

pub use laws::world_laws;
pub use layout::Layout;
pub use place::Place;
