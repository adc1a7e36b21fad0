//! What the phrases, guards and functions of a specification say in a world: all of them at once, or those that are
//! asked, and how guards are prepared to be asked in many worlds.
#![tactic(auto)]

mod activity;
mod ask;
mod asked;
mod cases;
mod fast;
mod guards;
mod macros;
mod memo;
mod pairs;
mod phrases;
mod relation;
mod sought;
mod state_phrases;
mod sums;

pub use asked::{Asked, Literal};
pub use guards::FastGuard;
pub use macros::Macros;
pub use memo::Memo;
pub use state_phrases::{StatePhrase, state_phrase};
