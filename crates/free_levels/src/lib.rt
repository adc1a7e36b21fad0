//! Levels that stand for functions of other levels: which functions hold at values that respect
//! them.
#![tactic(auto)]

mod cell;
mod key;
mod laws;
mod levels;
mod stages;

pub use cell::Cell;
pub use key::Key;
pub use laws::{level_laws, stage_laws, world_laws};
pub use levels::{compose, forget};
pub use stages::{make_exact, settle, sweep};
