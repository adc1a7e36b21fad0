//! Notes on a specification beyond its verdict: what is not used, entered or reacted to.
#![tactic(auto)]

mod declarations;
mod events;
mod facts;
mod states;
mod transitions;
mod unused;
mod usages;

pub use unused::tell_unused;
