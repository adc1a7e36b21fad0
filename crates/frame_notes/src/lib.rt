//! What a person is told of two specifications that are compared: comment lines behind what `same` writes.
#![tactic(auto)]

mod alike;
mod declarations;
mod drawing;
mod found;
mod frames;
mod holding;
mod members;
mod side;
mod states;
mod truths;

pub use alike::same_notes;
pub use frames::frame_notes;
pub use members::difference_notes;
pub use side::Side;
