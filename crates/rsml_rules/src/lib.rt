//! The rules S1 to S16 and the limits L1 to L7 of a specification.
#![tactic(auto)]

mod breaches;
mod checking;
mod error;

pub use breaches::{Breach, first_breaches};
pub use checking::check_rules;
pub use error::RuleError;
