//! The ground comparisons of a specification: what its rows ask, and the values of functions.

mod ask;
mod atom;
mod cases;
mod declarations;
mod ground_term;
mod indices;
mod input_cell;
mod phrases;
mod search;
mod states;
mod sums;

pub use ask::{Ask, Left};
pub use atom::Atom;
pub use cases::case_sums;
pub use ground_term::GroundTerm;
pub use input_cell::InputCell;
pub use search::Search;
pub use sums::{constant_number, single_cell};
