//! What the commands come to on a text that need no more than its judgement: `check`, `format` and `migrate`.
#![tactic(auto)]

mod checking;
mod layouts;

pub use checking::{check, judged};
pub use layouts::{format, migrate};
