//! Linear inequalities over whole numbers, and those among them that contradict each other.
#![tactic(auto)]

mod combination;
mod conflicts;
mod line;
mod multiplier;
mod opposites;
mod range;
mod row;
mod simplex;
mod term;
mod variable;

pub use conflicts::conflict;
pub use range::Range;
pub use row::Row;
pub use term::Term;
