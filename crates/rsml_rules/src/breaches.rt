//! The rules S1 to S16: the lowest that a specification breaks.
#![tactic(auto, using(crate::proofs::Noting::noting))]

mod contents;
mod declarations;
mod indices;
mod kinds;
mod lowest;
mod owner;
mod paths;
mod phrases;
mod setting;
mod state;
mod states;
mod transitions;
mod uses;
mod worst;

pub use lowest::{Breach, first_breaches, lowest_breach};
