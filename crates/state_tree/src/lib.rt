//! The tree of state instances by numbers: which states are active, and how a move enters its
//! target.
#![tactic(auto)]

mod ends;
mod families;
mod family;
mod nodes;
mod paths;
mod tree;

pub use nodes::{Nodes, StepRef};
pub use tree::Tree;
