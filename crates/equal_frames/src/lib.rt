//! What specifications of one frame have in common: laws of the meaning.
#![tactic(auto)]

mod laws;

pub use laws::{
    difference_is_one, equal_guards_move_runs, equal_guards_trace_alike, frame_laws,
    lines_are_read_alike,
};
