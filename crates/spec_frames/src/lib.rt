//! Whether two specifications have the same frame: all that is written in them but their names, macros and guards.
#![tactic(auto)]

mod declarations;
mod frames;
mod previous;
mod states;

pub use frames::{same_frame, same_syntax};
