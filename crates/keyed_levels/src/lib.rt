//! Levels of decision diagrams that stand for comparisons, beside those that spell worlds.
#![tactic(auto)]

mod keyed;
mod laws;
mod levels;
mod order;
mod place;
mod plan;

pub use keyed::Keyed;
pub use laws::keyed_laws;
pub use levels::KeyedLevels;
pub use place::KeyPlace;
pub use plan::Plan;
