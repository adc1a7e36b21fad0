//! Receives by numbers: the cells that each writes, the event that it raises, and what a message
//! leaves in a world.
#![tactic(auto)]

mod building;
mod field;
mod interfaces;
mod receive;
mod table;
mod writing;

pub use interfaces::Interfaces;
