//! An order for the levels of a machine's diagrams, in which what is read together stands together. Any order is right: which one
//! is chosen decides how large the diagrams are.
#![tactic(auto)]

mod alike;
mod bounds;
mod clusters;
mod joint;
mod lines;
mod lists;
mod marks;
mod neighbours;
mod ordering;
mod parts;
mod plans;
mod reading;
mod reads;
mod sequences;
mod sets;
mod sums;
mod supports;
mod union_find;

pub use plans::{PlanOfTwo, plan_of, plan_of_two};
