//! Reads the lines of an event file: the event that each tells, or the lowest rule that it breaks.
#![tactic(auto)]

mod brackets;
mod building;
mod digits;
mod field;
mod form;
mod indexing;
mod known;
mod line_fault;
mod line_forms;
mod owners;
mod reading;
mod received;
mod receives;
mod value_type;
mod words;

pub use line_fault::LineFault;
pub use line_forms::LineForms;
pub use received::Received;
