//! A machine that runs: messages are latched into its world, and rounds are done and written.
#![tactic(auto)]

mod events;
mod fields;
mod line_parts;
mod part;
mod part_texts;
mod raising;
mod running;
mod sends;
mod take_lines;
mod takes;
mod traces;
mod waiting;

pub use running::Running;
pub use traces::Traces;
