//! The commands on two files: `prove` on a specification and claims, `same` on two specifications, and both with comment lines behind what they
//! write.
#![tactic(auto)]

mod pair_action;
mod pairing;
mod second;
mod starting;
mod unread;

pub use pair_action::PairAction;
pub use pairing::pair;
