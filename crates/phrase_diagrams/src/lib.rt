//! Decision diagrams of what phrases say of worlds: components, cells, sums and states, and phrases, tables and guards from
//! those of the phrases that they name.
#![tactic(auto)]

mod bases;
mod bounds;
mod cells;
mod choices;
mod chosen;
mod comparisons;
mod levels;
mod lists;
mod numbers;
mod states;
mod tables;
mod terms;

pub use bounds::at_most;
pub use choices::choice;
pub use comparisons::compare;
pub use lists::{each_of, some_of};
pub use numbers::compare_number;
pub use states::active_states;
pub use tables::{guard, table};
