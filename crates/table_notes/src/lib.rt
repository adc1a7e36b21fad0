//! Tables of a specification, as comment lines tell them: rows and the truths of phrases, columns and in which worlds they are true, and
//! what a world holds of what is read.
#![tactic(auto)]

mod asking;
mod cells;
mod columns;
mod drawing;
mod examples;
mod holdings;
mod members;
mod reads;
mod truth_table;

pub use asking::{Asked, NODES, column, while_active, world_of_column};
pub use cells::cell_place;
pub use drawing::{letter, tell_column, text_at, widest};
pub use examples::tell_example;
pub use holdings::{put_padded, tell_world};
pub use members::{member_at, member_count};
pub use reads::{Read, Reads, read_group};
pub use truth_table::{TruthTable, cell_at, fails, is_true, rows_of, width};
